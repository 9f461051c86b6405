// The steps of a queue in its plain form.
use super::passing::pass_plain;
use super::{Seen, Step, Steps, entry, seen_of_poll, seen_of_put};
use crq_ring::PlainPipe;
use vio_num::NoMemory;

impl Steps for PlainPipe {
    fn step(&mut self, step: Step) -> Result<Seen, NoMemory> {
        match step {
            Step::Begin => begin(self),
            _ if self.session() == 0 => Ok(Seen::Other),
            Step::Put(k) => {
                self.reserve(1)?;
                Ok(seen_of_put(self.put(entry(k))))
            }
            Step::Poll => {
                self.reserve(1)?;
                Ok(seen_of_poll(self.poll()))
            }
            Step::Pass(k) => pass_plain(self, k),
            _ => Ok(Seen::Other),
        }
    }
}

// Begins the next session of a pipe.
fn begin(pipe: &mut PlainPipe) -> Result<Seen, NoMemory> {
    pipe.reserve(1)?;
    pipe.renew();
    Ok(Seen::Number(pipe.session()))
}
