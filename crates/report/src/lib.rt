//! The lines of a report, written into bytes that are lent.
#![tactic(auto)]

ghost use Rattle.std.specs.Prelude.{◌≡◌, ◌+◌, ◌≤◌, [], ◌++◌, decimal};
ghost use Rattle.arrayvec.specs.ArrayString.{array_string_len};
ghost use Rattle.digits.specs.Hexadecimal.{hex_of};
ghost use Rattle.report.specs.Lines as lines;
ghost use Rattle.report.specs.Writing.{PutsLine};

use arrayvec::ArrayString;
use calls::Answer;
use digits::hex16;
use fault::Numbers;
use itoa::Buffer;

/// The room that a line is given: no line is longer.
pub const LINE_ROOM: usize = 128;

// A line. It lies in the value itself, for a play takes no memory. It is pushed and not printed: a `write!` may fail as
// far as its contract says, and a line has room.
type Line = ArrayString<LINE_ROOM>;

// Appends a number of at most three digits.
fn push_number(line: &mut Line, number: u8)
    requires { array_string_len line.old + 3 ≤ LINE_ROOM }
    ensures bytes { line.new.bytes ≡ line.old.bytes ++ decimal number }
    ensures len { array_string_len line.new ≤ array_string_len line.old + 3 }
{
    line.push_str(Buffer::new().format(number));
}

// Appends a word.
fn push_word(line: &mut Line, word: u64)
    requires { array_string_len line.old + 16 ≤ LINE_ROOM }
    ensures bytes { line.new.bytes ≡ line.old.bytes ++ hex_of 16 word }
    ensures len { array_string_len line.new ≤ array_string_len line.old + 16 }
{
    line.push_str(&hex16(word));
}

// Appends the six numbers of a fault.
fn push_fault(line: &mut Line, fault: Numbers)
    requires { array_string_len line.old + 90 ≤ LINE_ROOM }
    ensures bytes { line.new.bytes ≡ line.old.bytes ++ lines.numbers_text fault }
    ensures len { array_string_len line.new ≤ array_string_len line.old + 90 }
{
    line.push_str(" ans=fault cause=");
    push_number(line, fault.cause);
    line.push_str(" va=");
    push_word(line, fault.address);
    line.push_str(" gpa=");
    push_word(line, fault.guest_physical);
    line.push_str(" stage=");
    push_number(line, fault.stage);
    line.push_str(" gl=");
    push_number(line, fault.guest_level);
    line.push_str(" hl=");
    push_number(line, fault.host_level);
}

// Appends what follows the number of the call.
fn push_answer(line: &mut Line, answer: Answer)
    requires { array_string_len line.old + 90 ≤ LINE_ROOM }
    ensures bytes { line.new.bytes ≡ line.old.bytes ++ lines.answer_text answer }
    ensures len { array_string_len line.new ≤ array_string_len line.old + 90 }
{
    match answer {
        Answer::Done => line.push_str(" ans=ok"),
        Answer::Word(word) => {
            line.push_str(" ans=word data=");
            push_word(line, word);
        }
        Answer::Refused(refusal) => {
            line.push_str(" ans=refused number=");
            push_number(line, refusal.number());
        }
        Answer::Faulted(fault) => push_fault(line, fault.numbers()),
    }
}

// Writes the line of the n-th call into an empty line.
fn push_line(line: &mut Line, n: u64, answer: Answer)
    requires { line.old.bytes ≡ [] }
    ensures { line.new.bytes ≡ lines.answer_line n answer }
{
    line.push_str("n=");
    line.push_str(Buffer::new().format(n));
    push_answer(line, answer);
    line.push_str("\n");
}

/// Writes the line of the n-th call at `at`, and says where it ends: `None`, and nothing written, where less than
/// `LINE_ROOM` is left.
// A report is bytes that a caller lends, C among them, so that the place of its next line is a number of its own.
pub fn put_answer(out: &mut [u8], at: usize, n: u64, answer: Answer) -> Option<usize>
    ensures { PutsLine out.old at (lines.answer_line n answer) out.new result }
{
    let room = out.len().checked_sub(at)?;
    if room < LINE_ROOM {
        return None;
    }
    // The line stays where it is made: what a function returns is copied once more.
    let mut line = ArrayString::new();
    push_line(&mut line, n, answer);
    let end = at + line.len();
    out[at..end].copy_from_slice(line.as_bytes());
    Some(end)
}
