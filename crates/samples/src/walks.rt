//! The worked examples of the two-stage walk: one load each.
use crate::lines::Shown;
use access::{Kind, Mode};
use anyhow::Context;
use calls::Target;
use memory::{FRAME_WORDS, Memory, Words};
use registers::{GuestRoot, HostRoot, Roots};
use stages::World;
use std::fmt;

/// One question: a load, at a memory of zero frames but for one word, and two root registers.
#[derive(Clone, Copy)]
struct Question {
    frames: usize,
    index: u64,
    word: u64,
    guest: u64,
    host: u64,
    target: Target,
}

/// The memory and the registers, and then the load.
impl fmt::Display for Question {
    fn fmt<W: fmt::Write>(&self, f: &mut fmt::Formatter<W>) -> fmt::Result {
        let Question {
            frames,
            index,
            word,
            guest,
            host,
            target,
        } = *self;
        write!(
            f,
            "{frames} frames, word {index} = {word:016x}, guest root {guest:016x}, host root {host:016x}\n  load {}",
            Shown(target)
        )
    }
}

fn two_frames(mode: Mode, address: u64) -> Question {
    Question {
        frames: 2,
        index: 512,
        word: 0xc7,
        guest: 0x8000_1000_0000_0001,
        host: 0,
        target: Target::new(mode, address),
    }
}

fn zero_frames(address: u64) -> Question {
    Question {
        frames: 8,
        index: 0,
        word: 0,
        guest: 0,
        host: 0x8000_0000_0000_0004,
        target: Target::new(Mode::Supervisor, address),
    }
}

impl Question {
    fn roots(self) -> anyhow::Result<Roots> {
        Ok(Roots {
            guest: GuestRoot::try_from(self.guest)
                .ok()
                .context("the guest root register breaks its layout")?,
            host: HostRoot::try_from(self.host)
                .ok()
                .context("the host root register breaks its layout")?,
        })
    }

    /// Prints what the load asks, and what comes.
    fn ask(self, rt: &(impl Print + AllocGlobal)) -> anyhow::Result<()> {
        let mut words = vec![in rt.alloc(); 0; self.frames.saturating_mul(FRAME_WORDS as usize)]?;
        let mut memory = Words { words: &mut words };
        memory
            .write(self.index, self.word)
            .ok()
            .context("the word lies outside the memory")?;
        println!(rt; "{self}")?;
        let access = self.target.access(Kind::Load);
        match World::new(&memory, self.roots()?).translate(access) {
            Ok(to) => {
                let index = u64::from(to.frame) * FRAME_WORDS + u64::from(to.word);
                let held = memory.read(index).unwrap_or(0);
                println!(rt;
                    "  granted: frame={} word={} holding {held:016x}",
                    to.frame, to.word
                )?;
            }
            Err(fault) => println!(rt; "  fault: {}", Shown(fault))?,
        }
        Ok(())
    }
}

/// Prints what each load asks, and what comes.
pub fn print_walks(rt: &(impl Print + AllocGlobal)) -> anyhow::Result<()> {
    let questions = [
        two_frames(Mode::Supervisor, 8),
        two_frames(Mode::User, 8),
        two_frames(Mode::Supervisor, 4),
        two_frames(Mode::Supervisor, 0x40_0000_0000),
        zero_frames(0x10),
    ];
    for question in questions {
        question.ask(rt)?;
    }
    Ok(())
}
