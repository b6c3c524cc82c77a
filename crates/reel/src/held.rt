// The held reel: an empty one, the limits, and its calls. Each call takes the reel and hands back the reel it leaves.
ghost use Rattle.std.specs.Prelude.{◌≡◌, ◌≤◌, length, take};
ghost use Rattle.rounding.specs.Limits.{knots_max};
ghost use Rattle.scans.specs.Standing.{Standing};
ghost use Rattle.knot.specs.Machine.{scans as scans_in};

use crate::answer::{Answer, Handed};
use first_cause::{append_cause, correct_in_list, query_cause, range_cause};
use knot::{KNOTS_MAX, Knot, Refusal};

// The first `count` knots are the list; the others are free, since the engine allocates nothing. What a reel holds can
// stand: that is part of the type. The knots and their count are fields here as in `Contents`, since what each call
// promises speaks of them (`scans` of reel/specs/Machine.antt).
#[derive(Clone, Copy)]
pub struct Reel {
    pub(crate) knots: [Knot; KNOTS_MAX],
    pub(crate) count: usize,
    pub ghost room: { length knots ≡ knots_max },
    pub ghost few: { count ≤ knots_max },
    pub ghost standing: { Standing (scans_in (take count knots)) },
}

impl Reel {
    ghost use Rattle.std.specs.Prelude.{[], ◌∷◌, ◌++◌, ◌≡◌, ◌<◌, length, set};
    ghost use Rattle.scans.specs.Standing.{Standing};
    ghost use Rattle.knot.specs.Machine.{scan};
    ghost use Rattle.rounding.specs.Limits.{gap_max, grade_max, knots_max, size_max};
    ghost use Rattle.knot.specs.Machine.{scans as scans_in};
    ghost use Rattle.block.specs.Block.{block, plain_edition};
    ghost use Rattle.block.specs.Reading.{edition_of};
    ghost use Rattle.calls.specs.Calls;
    ghost use Rattle.calls.specs.Calls.{accepted, position_of};
    ghost use Rattle.calls.specs.Same;
    ghost use Rattle.reel.specs.Machine.{Combines, Does, position_reply, reply_of, scans};
    ghost use Rattle.reel.specs.declared.answer.Answer.TheVariants as Answers;
    ghost use Rattle.reel.specs.declared.held.TheConstants.Reel.{GAP_MAX, GRADE_MAX, KNOTS_MAX, SIZE_MAX};

    pub const KNOTS_MAX: usize = KNOTS_MAX;

    pub const GAP_MAX: u64 = knot::GAP_MAX;

    pub const GRADE_MAX: usize = knot::GRADE_MAX;

    pub const SIZE_MAX: u64 = knot::SIZE_MAX;

    // The reel of no knots. The constants are document 01's limits.
    pub fn empty() -> Self
        ensures none { scans result ≡ [] }
        ensures knots_and_gap { (KNOTS_MAX ≡ knots_max) × (GAP_MAX ≡ gap_max) }
        ensures grade_and_size { (GRADE_MAX ≡ grade_max) × (SIZE_MAX ≡ size_max) }
    {
        Self {
            knots: [Knot::FREE; KNOTS_MAX],
            count: 0,
        }
    }

    // The knots of the list.
    pub(crate) fn list(&self) -> &[Knot]
        ensures { scans_in result.now ≡ scans self.now }
    {
        &self.knots[..self.count]
    }

    // A refusal hands back the reel as it was.
    fn refused(self, cause: Refusal) -> Handed
        ensures { (result.reel ≡ self) × (result.answer ≡ Answers.Refused cause) }
    {
        Handed {
            reel: self,
            answer: Answer::Refused(cause),
        }
    }

    // The empty list.
    pub fn clear(mut self) -> Handed
        ensures { Does Calls.clear self result.answer result.reel [] }
    {
        self.count = 0;
        Handed {
            reel: self,
            answer: Answer::Accepted,
        }
    }

    // One knot more at the end of the list, which can then stand.
    fn push(&mut self, knot: Knot)
        requires room { self.old.count < knots_max }
        requires standing { Standing (scans self.old ++ scan knot ∷ []) }
        ensures { scans self.new ≡ scans self.old ++ scan knot ∷ [] }
    {
        self.knots[self.count] = knot;
        self.count += 1;
    }

    // Another knot in place k of the list, which can then stand.
    fn put(&mut self, k: usize, knot: Knot)
        requires there { k < self.old.count }
        requires standing { Standing (set (scans self.old) k (scan knot)) }
        ensures { scans self.new ≡ set (scans self.old) k (scan knot) }
    {
        self.knots[k] = knot;
    }

    // The list with one knot more at its end. The reel is lent from the answer's own place, here and in `correct`:
    // lent as it came, it would be copied once more.
    pub fn append(self, position: u32, coefficients: &[i32]) -> Handed
        ensures { Does (Calls.append position coefficients.now) self result.answer result.reel [] }
    {
        let mut handed = Handed {
            reel: self,
            answer: Answer::Accepted,
        };
        match append_cause(handed.reel.list(), position, coefficients) {
            Err(fault) => handed.answer = Answer::Refused(fault.cause()),
            Ok(knot) => handed.reel.push(knot),
        }
        handed
    }

    // Knot k with other coefficients.
    pub fn correct(self, k: u32, coefficients: &[i32]) -> Handed
        ensures { Does (Calls.correct k coefficients.now) self result.answer result.reel [] }
    {
        let mut handed = Handed {
            reel: self,
            answer: Answer::Accepted,
        };
        match correct_in_list(handed.reel.list(), k, coefficients) {
            Err(fault) => handed.answer = Answer::Refused(fault.cause()),
            Ok(knot) => handed.reel.put(k as usize, knot),
        }
        handed
    }

    // The list of a block, or the number of its first fault. An accepted block of edition 1 is the block of its list.
    pub fn read(self, bytes: &[u8]) -> Handed
        ensures does { Does (Calls.read bytes.now) self result.answer result.reel [] }
        ensures again { reply_of result.answer ≡ accepted → edition_of bytes.now ≡ plain_edition →
            block (scans result.reel) ≡ bytes.now }
    {
        match block_reader::read(bytes) {
            Err(fault) => self.refused(fault.cause()),
            Ok(contents) => {
                let knots = contents.knots;
                Handed {
                    reel: Reel {
                        knots,
                        count: contents.count,
                    },
                    answer: Answer::Accepted,
                }
            }
        }
    }

    // The block of the list into a lent output: the number of its bytes; 10 where the output is shorter, which then
    // stays as it was.
    pub fn write(self, out: &mut [u8]) -> Handed
        ensures { Does (Calls.write out.old) self result.answer result.reel out.new }
    {
        let knots = self.list();
        if out.len() < block_writer::length(knots) {
            return self.refused(Refusal::Output);
        }
        let size = block_writer::write(knots, out);
        Handed {
            reel: self,
            answer: Answer::Number(size as i64),
        }
    }

    // The value at query position x, in 1/65,536 count. It and `trend` stay two: each promises what its own call says,
    // and one function of both would have a longer contract than body.
    pub fn value(self, x: u32) -> Handed
        ensures { Does (Calls.value x) self result.answer result.reel [] }
    {
        let knots = self.list();
        match query_cause(knots, x) {
            Err(cause) => self.refused(cause),
            Ok(()) => Handed {
                reel: self,
                answer: Answer::Number(chain::value(knots, x)),
            },
        }
    }

    // The trend there, in 1/65,536 count per step. It refuses what value refuses.
    pub fn trend(self, x: u32) -> Handed
        ensures { Does (Calls.trend x) self result.answer result.reel [] }
    {
        let knots = self.list();
        match query_cause(knots, x) {
            Err(cause) => self.refused(cause),
            Ok(()) => Handed {
                reel: self,
                answer: Answer::Number(chain::trend(knots, x)),
            },
        }
    }

    // The total of pieces i to j − 1, in 1/720,720 of a count × step: 8, then 9. The reel's is from 0 to the last knot.
    pub fn total(self, i: u32, j: u32) -> Handed
        ensures { Does (Calls.total i j) self result.answer result.reel [] }
    {
        let knots = self.list();
        match range_cause(knots.len(), i, j) {
            Err(cause) => self.refused(cause),
            Ok(()) => Handed {
                reel: self,
                answer: Answer::Number(chain::total(knots, i as usize, j as usize)),
            },
        }
    }

    // Whether two reels agree in their knot counts, positions, grades and all coefficients: the same curve data.
    pub fn same(self, other: Reel) -> bool
        ensures { result ≡ Same.same (scans self) (scans other) }
    {
        comparison::same(self.list(), other.list())
    }

    // The reel with the coefficients αA + βB, A being this reel's and B the other's: 14, 13, 6. After a refusal it is
    // this reel, as it was.
    pub fn combine(self, alpha: i32, beta: i32, other: Reel) -> Handed
        ensures { Combines alpha beta self other result.answer result.reel }
    {
        match combination::combine(alpha, self.list(), beta, other.list()) {
            Err(refusal) => self.refused(refusal.cause()),
            Ok(knots) => {
                let count = self.count;
                Handed {
                    reel: Reel { knots, count },
                    answer: Answer::Accepted,
                }
            }
        }
    }

    // The number of knots.
    pub fn count(self) -> u32
        ensures { result ≡ length (scans self) }
    {
        self.count as u32
    }

    // The position of knot k; 9 where there is no knot k.
    pub fn position(self, k: u32) -> Result<u16, Refusal>
        ensures { position_reply result ≡ position_of k (scans self) }
    {
        match self.list().get(k as usize) {
            Some(knot) => Ok(knot.position),
            None => Err(Refusal::Index),
        }
    }
}
