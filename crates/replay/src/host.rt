// A machine by value and its buffers, on which operation lines run through records in lent lists.
use super::cells;
use lent::operate::operate_kept;
use lines::answer_line::write_answer_line;
use lines::code::{Read, read_line};
use machine::records::Machine;
use std::io;
use types::answer::{Answer, Reason, Refusal, Value};
use types::fuel::FuelCosts;

#[derive(Drop)]
pub(crate) struct Host {
    machine: Machine,
    bytes: [u8; 65536],
    cells: [u64; 1024],
    items: [u64; 32],
}

impl Host {
    // A fresh machine, on buffers that are full of other cells than 0.
    pub(crate) fn new() -> Host {
        Host {
            machine: Machine::new(true, FuelCosts::default_costs()),
            bytes: [0xa5; 65536],
            cells: [0x5a5a_5a5a_5a5a_5a5a; 1024],
            items: [0x5a5a_5a5a_5a5a_5a5a; 32],
        }
    }

    // One line; 00 makes the machine anew, on the first line alone: `first` is what a line may say, not which code runs.
    fn run(&mut self, line: &[u8], first: bool) -> Answer {
        match read_line(line) {
            Some(Read::Operation(op)) => {
                let done = operate_kept(
                    self.machine,
                    &mut self.bytes,
                    &mut self.cells,
                    &mut self.items,
                    op,
                );
                self.machine = done.machine;
                done.answer
            }
            Some(Read::Making { metering, copied }) if first => {
                let costs = FuelCosts {
                    copied,
                    ..FuelCosts::default_costs()
                };
                self.machine = Machine::new(metering, costs);
                Ok(Value::Number(0))
            }
            _ => Err(Refusal::from(Reason::Malformed)),
        }
    }

    fn tell(&self, rt: &impl Print, answer: Answer) -> io::Result<()> {
        let mut line = [0; 37];
        if !write_answer_line(&mut line, answer, self.machine.fuel) {
            return Err(io::Error::from(io::ErrorKind::WriteZero));
        }
        rt.write_all(&line)
    }

    // All lines of the input, the last of which may lack its LF.
    pub(crate) fn answer(&mut self, rt: &impl Print, input: &[u8]) -> io::Result<()> {
        if input.is_empty() {
            return Ok(());
        }
        let lines = input.strip_suffix(b"\n").unwrap_or(input);
        for (number, line) in lines.split(|b| *b == b'\n').enumerate() {
            let answer = self.run(line, number == 0);
            self.tell(rt, answer)?;
        }
        Ok(())
    }

    pub(crate) fn show(&self, rt: &impl Print) -> io::Result<()> {
        cells::show(rt, &self.machine, &self.bytes, &self.cells)
    }
}
