//! Compares the judgements of rules made at random with what trying all values shows.

use crate::making::two_rules;
use crate::random::Random;
use crate::trying::{BODY, Tried, is_true, try_all};
use lc_model::{Cond, FieldType, Rules};
use rule_analysis::{Field, Finding, PairJudgement, Relation, judge, judge_pairs};
use std::alloc::{AllocError, Global};

/// The number of texts, of two rules each, that are made for each set of fields.
const TEXTS: u32 = 1_000;

/// Fields that share no bit.
const FREE: [Field; 4] = [
    Field {
        kind: FieldType::U8,
        mid: 0x0883,
        offset: 12,
        mask: 0x05,
    },
    Field {
        kind: FieldType::I8,
        mid: 0x0883,
        offset: 13,
        mask: 0x83,
    },
    Field {
        kind: FieldType::U16Le,
        mid: 0x0883,
        offset: 14,
        mask: 0x0101,
    },
    Field {
        kind: FieldType::I16Be,
        mid: 0x0883,
        offset: 16,
        mask: 0x8001,
    },
];

/// The bits of the free fields in a packet's body.
const FREE_BITS: [u8; BODY] = [0x05, 0x83, 0x01, 0x01, 0x80, 0x01, 0, 0];

/// Fields that share bits.
const SHARED: [Field; 4] = [
    Field {
        kind: FieldType::U8,
        mid: 0x0883,
        offset: 12,
        mask: 0x07,
    },
    Field {
        kind: FieldType::U8,
        mid: 0x0883,
        offset: 12,
        mask: 0x1C,
    },
    Field {
        kind: FieldType::I16Be,
        mid: 0x0883,
        offset: 12,
        mask: 0x8103,
    },
    Field {
        kind: FieldType::U16Le,
        mid: 0x0883,
        offset: 13,
        mask: 0x0103,
    },
];

/// The bits of the shared fields in a packet's body.
const SHARED_BITS: [u8; BODY] = [0x9F, 0x03, 0x01, 0, 0, 0, 0, 0];

/// The number of findings and of relations of each kind.
#[derive(Clone, Copy)]
pub struct Counts {
    /// Findings that a condition never has the wanted value.
    pub never: u32,
    /// Findings with packets that give the condition the value.
    pub possible: u32,
    /// Findings without an answer.
    pub unknown: u32,
    /// Findings without an answer for a condition that no body gives the value.
    pub never_unknown: u32,
    /// Pairs whose rules always have the same value.
    pub same: u32,
    /// Pairs of which one rule's failure follows from the other's.
    pub follow: u32,
    /// Findings and relations that trying all bodies disproves.
    pub wrong: u32,
}

/// The body of the first packet: its bytes from 12 on, counted from 0; zeros if it is shorter.
fn body_of(packets: &[Vec<u8>]) -> [u8; BODY] {
    let mut body = [0; BODY];
    if let Some(packet) = packets.first() {
        for i in 0..BODY {
            body[i] = packet.get(12 + i).copied().unwrap_or(0);
        }
    }
    body
}

impl Counts {
    fn new() -> Counts {
        Counts {
            never: 0,
            possible: 0,
            unknown: 0,
            never_unknown: 0,
            same: 0,
            follow: 0,
            wrong: 0,
        }
    }

    /// Adds 1 to a count, unless it is at its maximum.
    fn more(number: &mut u32) {
        *number = number.saturating_add(1);
    }

    /// Counts a finding on whether the condition can have the value `wanted`; `can` says what trying all bodies shows.
    fn count(&mut self, finding: &Finding, cond: &Cond, wanted: bool, can: bool) {
        match finding {
            Finding::Never => {
                Counts::more(&mut self.never);
                if can {
                    Counts::more(&mut self.wrong);
                }
            }
            Finding::Possible(packets) => {
                Counts::more(&mut self.possible);
                if is_true(cond, &body_of(packets)) != wanted {
                    Counts::more(&mut self.wrong);
                }
            }
            Finding::Unknown(_) => {
                Counts::more(&mut self.unknown);
                if !can {
                    Counts::more(&mut self.never_unknown);
                }
            }
        }
    }

    /// Counts the relation of two rules. If the fields are free, a relation that holds but isn't reported is wrong too.
    fn count_pair(&mut self, pairs: &[PairJudgement], tried: &Tried, free: bool) {
        let (first_follows, second_follows) = match pairs.first() {
            Some(pair) => (
                pair.relation != Relation::SecondFollows,
                pair.relation != Relation::FirstFollows,
            ),
            None => (false, false),
        };
        if first_follows && second_follows {
            Counts::more(&mut self.same);
        } else if first_follows || second_follows {
            Counts::more(&mut self.follow);
        }
        if first_follows && tried.second_alone || second_follows && tried.first_alone {
            Counts::more(&mut self.wrong);
        }
        if free
            && (!first_follows && !tried.second_alone || !second_follows && !tried.first_alone)
        {
            Counts::more(&mut self.wrong);
        }
    }

    /// Counts the findings and the relation of one text's two rules.
    fn count_text(
        &mut self,
        alloc: Global,
        rules: &Rules,
        bits: &[u8; BODY],
        free: bool,
    ) -> Result<(), AllocError> {
        let judgement = judge(alloc, rules)?;
        let pairs = judge_pairs(alloc, rules)?.related;
        if let [first, second] = rules.as_slice() {
            let tried = try_all(&first.cond, &second.cond, bits);
            if let [one, other] = judgement.rules.as_slice() {
                self.count(&one.fails, &first.cond, true, tried.first_true);
                self.count(&one.passes, &first.cond, false, tried.first_false);
                self.count(&other.fails, &second.cond, true, tried.second_true);
                self.count(&other.passes, &second.cond, false, tried.second_false);
            }
            self.count_pair(&pairs, &tried, free);
        }
        Ok(())
    }

    /// Counts over all texts of one set of fields.
    fn count_all(
        alloc: Global,
        fields: &[Field],
        bits: &[u8; BODY],
        free: bool,
    ) -> Result<Counts, AllocError> {
        let mut counts = Counts::new();
        let mut random = Random::from_seed(50);
        for _ in 0..TEXTS {
            let rules = two_rules(alloc, fields, &mut random)?;
            counts.count_text(alloc, &rules, bits, free)?;
        }
        Ok(counts)
    }

    /// Counts over 1,000 texts whose fields share no bit. The error is a lack of memory.
    pub fn of_free_fields(alloc: Global) -> Result<Counts, AllocError> {
        Counts::count_all(alloc, &FREE, &FREE_BITS, true)
    }

    /// Counts over 1,000 texts whose fields share bits. The error is a lack of memory.
    pub fn of_shared_bits(alloc: Global) -> Result<Counts, AllocError> {
        Counts::count_all(alloc, &SHARED, &SHARED_BITS, false)
    }
}
