//! Playing a trace over an image.
ghost use Rattle.std.specs.Prelude.{◌≡◌, ◌+◌, ◌*◌, ◌≤◌, length};
ghost use Rattle.memory.specs.Keeping.{Keeps};
ghost use Rattle.machine.specs.Machines.{moment_of};
ghost use Rattle.trace.specs.Lines.{lines_of};
ghost use Rattle.player.specs.Plays.{PlayedLine, PlayedLines, Plays};

use judging::judge;
use machine::Machine;
use memory::{Bytes, Memory};
use reader::read_call;
use refusal::Refusal;
use report::put_answer;
use sides::HostSide;
use trace::Lines;
use translator::Translator;

// Where a play stands: the machine, how many lines are played, and where the next line of the report begins.
#[derive(Drop)]
struct Cursor {
    machine: Machine,
    count: u64,
    end: usize,
}

impl Cursor {
    // Gives the machine the call of a line, and writes the line of its answer.
    fn play_line<M: Memory, T: Translator>(
        self,
        memory: &mut M,
        translator: &mut T,
        line: &[u8],
        report: &mut [u8],
    ) -> Cursor
        requires few { self.count ≤ 9999 }
        requires room { self.end + 128 ≤ length report.old }
        ensures played { PlayedLine T.Translator (moment_of (M.Memory.words memory.old) self.machine) translator.old line.now (self.count + 1) report.old self.end (moment_of (M.Memory.words memory.new) result.machine) translator.new report.new result.end }
        ensures counted { result.count ≡ self.count + 1 }
        ensures kept { Keeps M.Memory memory.old memory.new }
    {
        let (machine, answer) = self.machine.call(memory, translator, read_call(line));
        let count = self.count + 1;
        // There is room: a report is judged by its length before anything is played.
        let Some(end) = put_answer(report, self.end, count, answer) else {
            unreachable()
        };
        Cursor {
            machine,
            count,
            end,
        }
    }
}

// Makes a machine and plays each line. Answers the length of the report.
fn play_lines<M: Memory, T: Translator>(
    memory: &mut M,
    translator: &mut T,
    calls: &[u8],
    report: &mut [u8],
) -> usize
    requires few { length (lines_of calls.now) ≤ 9999 }
    requires room { 128 * length (lines_of calls.now) ≤ length report.old }
    ensures played { PlayedLines T.Translator (M.Memory.words memory.old) translator.old (lines_of calls.now) report.old (M.Memory.words memory.new) translator.new report.new result }
    ensures kept { Keeps M.Memory memory.old memory.new }
{
    let mut cursor = Cursor {
        machine: Machine::AtHost(HostSide::new(translator)),
        count: 0,
        end: 0,
    };
    for line in Lines::new(calls) {
        cursor = cursor.play_line(memory, translator, line, report);
    }
    cursor.end
}

/// Plays a trace over an image, and answers the length of its report. Later bytes of the report stay as they were.
///
/// Refused before anything changes: 1 if the image is not 1 to 4,096 whole frames, the trace's first line is not their
/// header, or the two differ; then 9 for more than 9,999 calls, or a report under 64 + 128 × calls bytes.
pub fn play<T: Translator>(
    image: &mut [u8],
    translator: &mut T,
    trace: &[u8],
    report: &mut [u8],
) -> Result<usize, Refusal>
    ensures { Plays T.Translator image.old translator.old trace.now report.old result image.new translator.new report.new }
{
    let calls = judge(image.len(), trace, report.len())?;
    let mut memory = Bytes { bytes: image };
    Ok(play_lines(&mut memory, translator, calls, report))
}
