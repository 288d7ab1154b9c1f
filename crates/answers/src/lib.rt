// How the planner's answer is written, in the book's hexadecimal: one line, and below it a plan.

#![tactic(auto)]

ghost use Rattle.std.specs.Prelude.{◌≡◌, [], ◌∷◌, ◌+◌, ◌*◌, ◌/◌, ◌<◌, ◌≤◌, length};
ghost use Rattle.lines.specs.Inner.Tables.{Encodings};
ghost use Rattle.planner.specs.Answer.{said};
ghost use Rattle.answers.specs.Answers.{pair, hex, hex_line, refused_bytes, answer_text};
ghost use Rattle.answers.specs.Inner.Written.{byte_lines, Written, Room};

use lines::Characters;

// The bytes of the longest plan: five for each of 8,512 requests, two for each fact of the largest sizes.
pub const PLAN_SIZE: usize = 42560;

// The characters of the longest answer: 7, and 11 for each request of the longest plan.
pub const TEXT_SIZE: usize = 93639;

// One byte in the front of a lent text, as its two digits, by the table of the values' characters. Each of these functions writes to the front
// of the text that it is lent, and returns how many characters it wrote.
// Kept: by the table and no `Display`, since `lines::digit_of` alone knows a digit; and the table beside the text, no writer of both: of a
// struct that holds a `&mut` each contract would say too that the reference is the same.
fn put_byte(b: u8, characters: &Characters, text: &mut [u8]) -> usize
    requires { 2 ≤ length text.old }
    ensures { Written text.old 0 (hex (b ∷ [])) text.new result }
{
    let high = usize::from(b / 16);
    let low = usize::from(b % 16);
    text[0] = characters.table[high];
    text[1] = characters.table[low];
    2
}

// The digits of bytes.
pub fn put_bytes(bytes: &[u8], characters: &Characters, text: &mut [u8]) -> usize
    requires { 2 * length bytes.now ≤ length text.old }
    ensures { Written text.old 0 (hex bytes.now) text.new result }
{
    let mut end = 0;
    for b in bytes {
        end += put_byte(*b, characters, &mut text[end..]);
    }
    end
}

// A line.
pub fn put_line(bytes: &[u8], characters: &Characters, text: &mut [u8]) -> usize
    requires { 2 * length bytes.now + 1 ≤ length text.old }
    ensures { Written text.old 0 (hex_line bytes.now) text.new result }
{
    let end = put_bytes(bytes, characters, text);
    text[end] = b'\n';
    end + 1
}

// The bytes as lines of `width` each; those behind the last whole line are left out.
pub fn put_lines(bytes: &[u8], width: usize, characters: &Characters, text: &mut [u8]) -> usize
    requires { (0 < width) × (2 * length bytes.now + length bytes.now / width ≤ length text.old) }
    ensures { Written text.old 0 (byte_lines width (length bytes.now / width) bytes.now) text.new result }
{
    let mut end = 0;
    for row in bytes.chunks_exact(width) {
        end += put_line(row, characters, &mut text[end..]);
    }
    end
}

// A number as two bytes.
// Kept: the two quotients that `pair` of specs/Answers names; `to_be_bytes` after a cast to 16 bits is no plainer.
pub fn pair(n: usize) -> [u8; 2]
    ensures { result ≡ pair n }
{
    [(n / 256 % 256) as u8, (n % 256) as u8]
}

// 8F, the number and the line of a refusal, in the front of a lent text.
// Kept: the table and its fact as a clause, not `Characters`: docs/PROMISES.md names this function, so its parameters may not change.
pub fn put_refused(number: u8, line: usize, characters: &[u8; 16], text: &mut [u8]) -> usize
    requires { Encodings characters.now × (9 ≤ length text.old) }
    ensures { Written text.old 0 (hex_line (refused_bytes number line)) text.new result }
{
    let [high, low] = pair(line);
    let characters = Characters { table: *characters };
    put_line(&[0x8F, number, high, low], &characters, text)
}

// The planner's answer in the front of a lent text, with the plan in the front of `plan`.
pub fn put_answer(
    answer: Result<Option<usize>, planner::Refusal>,
    plan: &[u8],
    text: &mut [u8],
) -> usize
    requires { Room answer plan.now text.old }
    ensures { Written text.old 0 (answer_text (said answer) plan.now) text.new result }
{
    let characters = Characters::new();
    match answer {
        Ok(None) => put_line(&[0x80], &characters, text),
        Ok(Some(n)) => {
            let [high, low] = pair(n);
            let first = put_line(&[0x81, high, low], &characters, text);
            let end = 5 * n;
            first + put_lines(&plan[..end], 5, &characters, &mut text[first..])
        }
        Err(r) => {
            let number = planner::refusal_number(r);
            let line = frames::lent_line(r);
            put_refused(number, line, &characters.table, text)
        }
    }
}
