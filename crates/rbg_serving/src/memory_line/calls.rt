//! The calls of lines over memory.
ghost use Rattle.std.specs.Prelude.{◌≡◌, drop, length, min, take};
ghost use Rattle.rbg_serving.specs.Answers.{FitsPoll, FitsPut, after_poll, after_put};
ghost use Rattle.rbg_serving.specs.MemoryLines.{MemoryTells, IsPolled, IsPut};
ghost use Rattle.rbg_serving.specs.Told.{Told, Tells};

use super::MemoryLine;
use crate::give::{Give, Take};
use crate::{Line, Polled, Put};

/// The bytes from a place on.
fn beyond(bytes: &[u8], from: usize) -> &[u8]
    ensures { result.now ≡ drop from bytes.now }
{
    if from < bytes.len() {
        &bytes[from..]
    } else {
        &[]
    }
}

/// Copies as many of the bytes as fit to the start of the buffer. Returns how many.
fn copy(bytes: &[u8], buffer: &mut [u8]) -> usize
    ensures most { result ≡ min (length bytes.now) (length buffer.new) }
    ensures copied { take result buffer.new ≡ take result bytes.now }
{
    let count = bytes.len().min(buffer.len());
    buffer[..count].copy_from_slice(&bytes[..count]);
    count
}

impl Line for MemoryLine {
    ghost told = { λ line so_far. MemoryTells line so_far };

    ghost failure_count = { λ line. line.failures };

    fn poll(&mut self, buffer: &mut [u8]) -> Polled
        ensures fits { FitsPoll result (length buffer.new) }
        ensures told { (so_far : Told) →
            Tells MemoryTells (λ line. line.failures) self.old so_far →
            Tells MemoryTells (λ line.
            line.failures) self.new (after_poll so_far result buffer.new) }
        ensures gives { IsPolled self.old self.new result buffer.new }
    {
        let Some(give) = self.gives.as_slice().get(self.whole) else {
            return Polled::Nothing;
        };
        match give {
            Give::Bytes(bytes) => {
                let rest = beyond(bytes, self.offset);
                let count = copy(rest, buffer);
                if count < rest.len() {
                    self.offset += count;
                } else {
                    self.whole += 1;
                    self.offset = 0;
                }
                Polled::Got(count)
            }
            Give::Nothing => {
                self.whole += 1;
                self.offset = 0;
                Polled::Nothing
            }
            Give::Ended => {
                self.whole += 1;
                self.offset = 0;
                Polled::Ended
            }
            Give::Failed => {
                self.whole += 1;
                self.offset = 0;
                self.failures += 1;
                Polled::Failed
            }
        }
    }

    fn put(&mut self, bytes: &[u8]) -> Put
        ensures fits { FitsPut result (length bytes.now) }
        ensures told { (so_far : Told) →
            Tells MemoryTells (λ line. line.failures) self.old so_far →
            Tells MemoryTells (λ line. line.failures) self.new (after_put so_far result bytes.now) }
        ensures takes { IsPut self.old self.new result bytes.now }
    {
        let free = self.room - self.taken.len();
        let most = match self.takes.as_slice().get(self.puts) {
            None => free,
            Some(Take::UpTo(most)) => {
                self.puts += 1;
                free.min(*most)
            }
            Some(Take::Fail) => {
                self.puts += 1;
                self.failures += 1;
                return Put::Failed;
            }
        };
        let count = bytes.len().min(most);
        match self.taken.extend_from_slice(&bytes[..count]) {
            Ok(()) => Put::Took(count),
            Err(_) => unreachable!(),
        }
    }

    fn failures(&self) -> u64 {
        self.failures
    }
}
