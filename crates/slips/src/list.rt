//! The slips that wait in a book, and a note of those that are out.

ghost use Rattle.std.specs.Prelude.{◌≡◌, ◌≤◌, [], length, IfOk, vec_len, vec_capacity};
ghost use Rattle.slips.specs.Slips.{shares_waiting, add_answer, slips_added, drawn_told, slips_drawn, draw_answer, returned_told, slips_returned, return_answer, HandedBack};

use crate::slip::{DrawnSlip, RefusedReturn, ReturnAnswer};
use std::alloc::{AllocError, Global};
use terms::orders::Slip;
use terms::refusals::Refusal;

/// The most slips that wait or are drawn.
pub const MAX_SLIPS: usize = 32;

/// The slips of a book, at most 32, with room for all of them from the start.
#[derive(Drop)]
pub struct SlipList {
    slips: Vec<Slip>,
    ghost few: { vec_len slips ≤ 32 },
    ghost room: { 32 ≤ vec_capacity slips },
}

impl SlipList {
    /// No slips, and room for all that there may be.
    pub fn new(heap: Global) -> Result<Self, AllocError>
        ensures { IfOk result (λ l. l.slips.items ≡ []) }
    {
        let slips = Vec::with_capacity(heap, MAX_SLIPS)?;
        Ok(SlipList { slips })
    }

    /// How many slips wait or are drawn.
    pub fn len(&self) -> usize
        ensures { result ≡ length self.now.slips.items }
    {
        self.slips.len()
    }

    /// A slip is to wait; it is refused while 32 wait or are drawn.
    pub fn add(&mut self, number: u32, shares: u32) -> Result<(), Refusal>
        ensures answer { result ≡ add_answer self.old.slips.items }
        ensures after { self.new.slips.items ≡ slips_added self.old.slips.items number shares }
    {
        if self.slips.len() >= MAX_SLIPS {
            return Err(Refusal::SlipsFull);
        }
        self.slips.push_reserved(Slip {
            number,
            shares,
            drawn: false,
        });
        Ok(())
    }

    /// The shares on the waiting slip of a number.
    pub fn waiting_shares(&self, number: u32) -> Option<u32>
        ensures { result ≡ shares_waiting number self.now.slips.items }
    {
        self.slips
            .iter()
            .find(|slip| slip.number == number && !slip.drawn)
            .map(|slip| slip.shares)
    }

    /// Hands out the waiting slip of a number.
    pub fn draw(&mut self, number: u32) -> Result<DrawnSlip, Refusal>
        ensures answer { draw_answer result ≡ drawn_told number self.old.slips.items }
        ensures after { self.new.slips.items ≡ slips_drawn number self.old.slips.items }
    {
        let shares = self.waiting_shares(number).ok_or(Refusal::NoWaitingSlip)?;
        for slip in self.slips.iter_mut() {
            if slip.number == number {
                slip.drawn = true;
            }
        }
        Ok(DrawnSlip { number, shares })
    }

    /// Takes a slip back, with the shares executed away, or hands it back as it was.
    pub fn give_back(&mut self, slip: DrawnSlip, away: u32) -> Result<ReturnAnswer, RefusedReturn>
        ensures answer { return_answer result ≡ returned_told slip.number slip.shares away self.old.slips.items }
        ensures after { self.new.slips.items ≡ slips_returned slip.number slip.shares away self.old.slips.items }
        ensures back { HandedBack slip result }
    {
        let out = slip.note();
        if !self.slips.contains(&out) {
            return Err(RefusedReturn {
                why: Refusal::NoDrawnSlip,
                slip,
            });
        }
        if away > slip.shares {
            return Err(RefusedReturn {
                why: Refusal::MoreThanSlip,
                slip,
            });
        }
        let DrawnSlip { number, shares } = slip;
        self.slips.retain(|slip| *slip != out);
        Ok(ReturnAnswer {
            number,
            away,
            cancelled: shares - away,
        })
    }
}
