// A session's host: a machine in place, and room for answers.
#![tactic(auto, using(lines::proofs::Runs::progress_used))]

ghost use Rattle.std.specs.Prelude.{◌≤◌, length, IfOk};

use super::failure::Failure;
use lines::session::{Session, piece};
use machine::row;
use types::fuel::FuelCosts;

#[derive(Drop)]
pub(crate) struct Host {
    pub(crate) session: Session,
    words: [u64; 186],
    bytes: [u8; 65536],
    cells: [u64; 1024],
    items: [u64; 32],
    out: [u8; 65536],
}

impl Host {
    // A fresh machine before its first line.
    pub(crate) fn new() -> Host {
        let mut words = [0; 186];
        row::fresh(&mut words, true, FuelCosts::default_costs());
        Host {
            session: Session::new(),
            words,
            bytes: [0; 65536],
            cells: [0; 1024],
            items: [0; 32],
            out: [0; 65536],
        }
    }

    // As many lines as there is room for their answers; answers how many bytes they are.
    fn piece(&mut self, rt: &impl Print, input: &[u8]) -> Result<usize, Failure>
        ensures { IfOk result (λ used. used ≤ length input.now) }
    {
        let p = piece(
            self.session,
            &mut self.words,
            &mut self.bytes,
            &mut self.cells,
            &mut self.items,
            input,
            &mut self.out,
        )
        .map_err(|_| Failure::Damaged)?;
        self.session = p.session;
        let answers = self.out.get(..p.wrote).ok_or(Failure::Damaged)?;
        rt.write_all(answers).map_err(Failure::Unwritten)?;
        Ok(p.used)
    }

    // All whole lines; answers how many bytes they are.
    pub(crate) fn answer(&mut self, rt: &impl Print, input: &[u8]) -> Result<usize, Failure>
        ensures { IfOk result (λ used. used ≤ length input.now) }
    {
        let mut rest = input;
        // Not a `for`: a piece takes as many lines as their answers have room for.
        while !rest.is_empty() {
            match self.piece(rt, rest)? {
                0 => break,
                used => rest = &rest[used..],
            }
        }
        Ok(input.len() - rest.len())
    }
}
