//! Books and shares.

ghost use Rattle.std.specs.Prelude.{◌≡◌, ◌+◌, ◌≤◌, ◌<◌, ◌^◌, ◌↔◌, ◌++◌, ◌∷◌, [], length, slice_get, slice_set, IfOk, IsTrue, MatchResult, vec_len};
ghost use Rattle.rr_ledger.specs.Books.{BookView, ShareView, no_numbers, delivered_more, refused_more, taken_more, totals, total, out_row, back_row, IsRow, HasRoom, share_with, book_with, book_counts, MayTake, AllBack, Agrees};

use super::numbers::{Numbers, Row};
use rr_base::{Channel, Fault};
use std::alloc::Global;
use std::marker::Model;

/// Counts what goes through one channel: a row for each share that was issued, and the sum of the rows.
/// What was delivered and refused together stays within the limit, in objects and in messages, and no more is
/// taken than was delivered.
#[derive(Drop)]
pub struct Book {
    channel: Channel,
    limit: u128,
    sum: Numbers,
    rows: Vec<Row>,
}

impl Model for Book {
    ghost use Rattle.std.specs.Prelude.{◌<◌, ◌^◌};
    ghost use Rattle.rr_ledger.specs.Books.{BookView, Agrees};

    ghost Value = { BookView };

    ghost view = { λ b. record { channel = b.channel; limit = b.limit; rows = b.rows.items } };

    ghost invariant = { λ b. Agrees b.sum b.rows.items b.limit };
}

/// What one ractor was answered by the calls of one channel. Only the book that issued it counts it, and once it is
/// given back nobody can.
#[derive(Drop)]
pub struct Share {
    channel: Channel,
    place: usize,
    numbers: Numbers,
}

impl Model for Share {
    ghost use Rattle.rr_ledger.specs.Books.{ShareView};

    ghost Value = { ShareView };

    ghost view = { λ s. record { channel = s.channel; place = s.place; numbers = s.numbers } };
}

fn is_same(left: &Row, right: &Row) -> bool
    ensures { IsTrue result ↔ (left.now ≡ right.now) }
{
    *left == *right
}

fn stands_at(rows: &Vec<Row>, place: usize, row: &Row) -> bool
    ensures { IsTrue result ↔ (slice_get rows.now.items place ≡ Some row.now) }
{
    match rows.get(place) {
        Some(found) => is_same(found, row),
        None => false,
    }
}

impl Book {
    /// A book without shares. `limit` bounds the objects, and the messages, that are delivered and refused.
    pub fn new(alloc: Global, channel: Channel, limit: u128) -> Book
        ensures { result ≡ record { channel = channel; limit = limit; rows = [] } }
    {
        Book {
            channel,
            limit,
            sum: Numbers::zero(),
            rows: Vec::new(alloc),
        }
    }

    /// A new share, with nothing counted. `Memory` is the only fault, and it leaves the book as it was.
    pub fn issue(&mut self) -> Result<Share, Fault>
        ensures { MatchResult result
            (λ s. (s ≡ record { channel = self.old.channel; place = length self.old.rows; numbers = no_numbers }) × (self.new ≡ book_with self.old (self.old.rows ++ out_row no_numbers ∷ [])))
            (λ fault. (fault ≡ Fault.Memory) × (self.new ≡ self.old)) }
    {
        let place = self.rows.len();
        self.rows.push(Row::out(Numbers::zero()))?;
        Ok(Share {
            channel: self.channel,
            place,
            numbers: Numbers::zero(),
        })
    }

    /// Whether the share is of this book, was not given back, and has the numbers of its row.
    pub fn is_row(&self, share: &Share) -> bool
        ensures { IsTrue result ↔ IsRow self.now share.now }
    {
        share.channel == self.channel
            && stands_at(&self.rows, share.place, &Row::out(share.numbers))
    }

    /// Whether a message of this size can still be counted as delivered or refused.
    pub fn room(&self, size: u32) -> bool
        ensures { IsTrue result ↔ HasRoom self.now size }
    {
        self.limit - (self.sum.delivered.objects + self.sum.refused.objects) >= size as u128
            && self.limit - (self.sum.delivered.messages + self.sum.refused.messages) >= 1
    }

    /// Counts a message of this size as delivered: it was put into the channel.
    pub fn add_delivered(&mut self, share: &mut Share, size: u32)
        requires is_row { IsRow self.old share.old }
        requires room { HasRoom self.old size }
        ensures share { share.new ≡ share_with share.old (delivered_more share.old.numbers size) }
        ensures book { self.new ≡ book_counts self.old share.old (delivered_more share.old.numbers size) }
        ensures row { IsRow self.new share.new }
    {
        let sum = self.sum.delivered_more(size);
        let numbers = share.numbers.delivered_more(size);
        self.count(share, sum, numbers);
    }

    /// Counts a message of this size as refused: it went back with a fault.
    pub fn add_refused(&mut self, share: &mut Share, size: u32)
        requires is_row { IsRow self.old share.old }
        requires room { HasRoom self.old size }
        ensures share { share.new ≡ share_with share.old (refused_more share.old.numbers size) }
        ensures book { self.new ≡ book_counts self.old share.old (refused_more share.old.numbers size) }
        ensures row { IsRow self.new share.new }
    {
        let sum = self.sum.refused_more(size);
        let numbers = share.numbers.refused_more(size);
        self.count(share, sum, numbers);
    }

    /// Counts a message of this size as taken: it left the channel.
    pub fn add_taken(&mut self, share: &mut Share, size: u32)
        requires is_row { IsRow self.old share.old }
        requires left { MayTake self.old size }
        ensures share { share.new ≡ share_with share.old (taken_more share.old.numbers size) }
        ensures book { self.new ≡ book_counts self.old share.old (taken_more share.old.numbers size) }
        ensures row { IsRow self.new share.new }
    {
        let sum = self.sum.taken_more(size);
        let numbers = share.numbers.taken_more(size);
        self.count(share, sum, numbers);
    }

    /// Puts other numbers into a share and its row, and their sum beside the rows.
    fn count(&mut self, share: &mut Share, sum: Numbers, numbers: Numbers)
        requires is_row { IsRow self.old share.old }
        requires agrees { Agrees sum (slice_set self.old.rows share.old.place (out_row numbers)) self.old.limit }
        ensures share { share.new ≡ share_with share.old numbers }
        ensures book { self.new ≡ book_counts self.old share.old numbers }
        ensures row { IsRow self.new share.new }
    {
        self.sum = sum;
        self.rows[share.place] = Row::out(numbers);
        share.numbers = numbers;
    }

    /// Marks the share's row as back. `NotMine`, with the share, exactly where it is no row of this book.
    pub fn give_back(&mut self, share: Share) -> Result<(), (Fault, Share)>
        ensures { MatchResult result
            (λ _. IsRow self.old share × (self.new ≡ book_with self.old (slice_set self.old.rows share.place (back_row share.numbers))))
            (λ refusal. (refusal ≡ (Fault.NotMine, share)) × ¬ IsRow self.old share × (self.new ≡ self.old)) }
    {
        if !self.is_row(&share) {
            return Err((Fault::NotMine, share));
        }
        self.rows[share.place] = Row::back(share.numbers);
        Ok(())
    }

    /// Whether each share that was issued was given back.
    pub fn all_back(&self) -> bool
        ensures { IsTrue result ↔ AllBack self.now.rows }
    {
        self.rows.iter().all(|row| row.is_back)
    }

    /// The sum of the rows.
    pub fn totals(&self) -> Numbers
        ensures sums { result ≡ totals self.now.rows }
        ensures objects { result.delivered.objects + result.refused.objects ≤ self.now.limit }
        ensures messages { result.delivered.messages + result.refused.messages ≤ self.now.limit }
    {
        let Book { sum, .. } = self;
        *sum
    }
}
