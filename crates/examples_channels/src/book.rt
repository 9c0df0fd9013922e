//! Two books, and their shares.

use rr_base::{Channel, Fault, RactorNo};
use rr_ledger::{Book, Share};
use std::test::Fail;

const LIMIT: u128 = 1 << 100;

fn inbox(number: u32) -> Channel {
    Channel::Inbox(RactorNo(number))
}

// Gives a share back that is of another book, and answers it.
fn refused(book: &mut Book, share: Share) -> Result<Share, Fail> {
    let Err((fault, back)) = book.give_back(share) else {
        return Err(Fail::from("a foreign share was taken"));
    };
    if fault == Fault::NotMine {
        return Ok(back);
    }
    Err(Fail::from("a share was refused for another reason"))
}

#[test]
fn shares_of_two_books_are_told_apart(rt: HostRuntime) -> Result<(), Fail> {
    let mut first = Book::new(rt.alloc(), inbox(1), LIMIT);
    let mut second = Book::new(rt.alloc(), inbox(2), LIMIT);
    let one = first.issue()?;
    let two = second.issue()?;
    let two = refused(&mut first, two)?;
    assert!(rt; second.give_back(two).is_ok());
    assert!(rt; second.all_back() && !first.all_back());
    assert!(rt; first.give_back(one).is_ok());
    assert!(rt; first.all_back());
    Ok(())
}

fn deliver(book: &mut Book, share: &mut Share, size: u32) {
    if book.is_row(share) && book.room(size) {
        book.add_delivered(share, size);
    }
}

#[test]
fn a_book_is_the_sum_of_its_shares(rt: HostRuntime) -> Result<(), Fail> {
    let mut book = Book::new(rt.alloc(), inbox(1), LIMIT);
    let mut sender = book.issue()?;
    deliver(&mut book, &mut sender, 2);
    deliver(&mut book, &mut sender, 3);
    let totals = book.totals();
    assert!(rt; totals.delivered.objects == 5);
    assert!(rt; totals.delivered.messages == 2);
    assert!(rt; totals.taken.objects == 0);
    Ok(())
}
