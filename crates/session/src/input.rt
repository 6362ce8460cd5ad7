// The input that a session still has to use.
ghost use Rattle.std.specs.Prelude.{◌≡◌};
ghost use Rattle.types.specs.Done.{done};
ghost use Rattle.lines.specs.Input.{kept_of};

use super::failure::Failure;
use super::host::Host;
use lines::input::{end_line, keep};
use std::io::Read;

#[derive(Drop)]
pub(crate) struct Input {
    bytes: [u8; 65536],
    // How many bytes at the start are still to be used.
    kept: usize,
}

impl Input {
    pub(crate) fn new() -> Input {
        Input {
            bytes: [0; 65536],
            kept: 0,
        }
    }

    // What is left of the first bytes, behind those used, is kept.
    fn settle(&mut self, used: usize, end: usize)
        ensures { done self.new.kept self.new.bytes ≡ kept_of self.old.bytes used end }
    {
        self.kept = keep(&mut self.bytes, used, end);
    }

    // The whole lines of the first bytes are answered, and what is left comes to the start.
    fn use_up(&mut self, rt: &impl Print, host: &mut Host, end: usize) -> Result<(), Failure> {
        if let Some(input) = self.bytes.get(..end) {
            let used = host.answer(rt, input)?;
            self.settle(used, end);
        }
        Ok(())
    }

    // One read, and the lines in what came; answers whether there may be more.
    fn turn(
        &mut self,
        rt: &impl Print,
        from: &mut impl Read,
        host: &mut Host,
    ) -> Result<bool, Failure> {
        let kept = self.kept;
        let Some(room) = self.bytes.get_mut(kept..) else {
            return Ok(false);
        };
        match from.read(room).map_err(Failure::Unread)? {
            0 => Ok(false),
            count => {
                self.use_up(rt, host, kept + count)?;
                Ok(true)
            }
        }
    }

    // A proved loop has to end, and nothing says that the input does: the turns are counted up to a number that no run reaches.
    fn read_all(
        &mut self,
        rt: &impl Print,
        from: &mut impl Read,
        host: &mut Host,
    ) -> Result<(), Failure> {
        for _ in 0..u64::MAX {
            if !self.turn(rt, from, host)? {
                break;
            }
        }
        Ok(())
    }

    // All lines; a last one that lacks its LF gets it.
    pub(crate) fn run(
        &mut self,
        rt: &impl Print,
        from: &mut impl Read,
        host: &mut Host,
    ) -> Result<(), Failure> {
        self.read_all(rt, from, host)?;
        match end_line(host.session, &mut self.bytes, self.kept) {
            Some(end) => self.use_up(rt, host, end),
            None => Ok(()),
        }
    }
}
