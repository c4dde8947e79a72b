// Books at their limits, and the two makes side by side.
use board_book::board::BoardBook;
use book::counts::Counts;
use book::faces::{Keeping, Reading};
use book::mark::MarkFact;
use book::tie::{Direction, Neighbours, Tie};
use list_book::ListBook;
use runs::play::{Answer, Call, step};
use std::alloc::{AllocError, Global};

// An empty list book of so many places.
fn list(heap: Global, counts: Counts, places: usize) -> Result<ListBook, AllocError> {
    let row = vec![in heap; Tie::default(); places]?;
    Ok(ListBook::new(counts, row))
}

// An empty board book over so many words.
fn board(heap: Global, counts: Counts, words: usize) -> Result<BoardBook, AllocError> {
    let words = vec![in heap; u64::MAX; words]?;
    Ok(BoardBook::new(counts, words))
}

// Names, labels, marks and words, and the number of the refusal that a check for a list book and for a
// board of so many words gives, if it refuses.
pub const LIMITS: [((u8, u8, u8, usize), Option<u8>, Option<u8>); 12] = [
    ((1, 0, 0, 0), None, None),
    ((64, 16, 16, 1024), None, None),
    ((64, 16, 16, 1023), None, Some(14)),
    ((0, 0, 0, 0), Some(20), Some(20)),
    ((65, 0, 0, 0), Some(20), Some(20)),
    ((1, 17, 0, 1), Some(20), Some(20)),
    ((1, 0, 17, 0), Some(20), Some(20)),
    ((255, 255, 255, 0), Some(20), Some(20)),
    ((8, 1, 0, 1), None, None),
    ((8, 1, 0, 0), None, Some(14)),
    ((9, 1, 0, 1), None, Some(14)),
    ((9, 1, 0, 2), None, None),
];

// How many of the checks at the limits answer as they should.
pub fn limits() -> usize {
    LIMITS
        .iter()
        .filter(|((names, labels, marks, words), of_list, of_board)| {
            let counts = Counts {
                names: *names,
                labels: *labels,
                marks: *marks,
            };
            let list = ListBook::check(counts).err();
            let board = BoardBook::check(counts, *words).err();
            list.map(|refusal| refusal.number()) == *of_list
                && board.map(|refusal| refusal.number()) == *of_board
        })
        .count()
}

// Whether a book is the one that is made after a failed check.
fn is_least<B: Keeping>(book: &mut B) -> bool {
    let tie = Tie::default();
    let one_name = Counts {
        names: 1,
        labels: 0,
        marks: 0,
    };
    let least = book.counts() == one_name && book.capacity() == 0;
    let fact = MarkFact { mark: 0, name: 0 };
    least && refused(step(book, Call::Enter(tie)), 1) && refused(step(book, Call::SetMark(fact)), 1)
}

// Whether an answer refuses, with this number.
fn refused(answer: Answer, number: u8) -> bool {
    answer.is_err_and(|refusal| refusal.number() == number)
}

// How many of the makings and fillings come out as they should.
pub fn fillings(heap: Global) -> Result<usize, AllocError> {
    let two = Counts {
        names: 64,
        labels: 2,
        marks: 0,
    };
    let bad = Counts {
        names: 65,
        labels: 2,
        marks: 0,
    };
    let table = [
        is_least(&mut list(heap, bad, 9)?),
        is_least(&mut board(heap, bad, 1024)?),
        is_least(&mut board(heap, two, 127)?),
        fills(&mut list(heap, two, 0)?, 0),
        fills(&mut list(heap, two, 1)?, 1),
        fills(&mut list(heap, two, 4095)?, 4095),
        fills(&mut list(heap, two, 4096)?, 4096),
        fills(&mut list(heap, two, 5000)?, 4096),
        fills(&mut board(heap, two, 128)?, 8192),
        fills(&mut board(heap, two, 200)?, 8192),
    ];
    Ok(table.iter().filter(|passes| **passes).count())
}

// Whether a book of 64 names and 2 labels has this capacity, takes so many ties in order, and refuses the
// next with 2 as long as none is struck.
fn fills<B: Keeping>(book: &mut B, capacity: usize) -> bool {
    if book.capacity() != capacity {
        return false;
    }
    for label in 0..2 {
        for from in 0..64 {
            for to in 0..64 {
                let full = book.tie_count() >= capacity;
                let answer = step(book, Call::Enter(Tie { label, from, to }));
                if full && !refused(answer, 2) || !full && answer.is_err() {
                    return false;
                }
            }
        }
    }
    book.tie_count() == capacity.min(8192) && refills(book, capacity)
}

// Whether a struck tie frees its place for one other.
fn refills<B: Keeping>(book: &mut B, capacity: usize) -> bool {
    let first = Tie::default();
    let last = Tie {
        label: 1,
        from: 63,
        to: 63,
    };
    if capacity == 0 || capacity == 8192 {
        return true;
    }
    let struck = step(book, Call::Strike(first)).is_ok();
    let entered = step(book, Call::Enter(last)).is_ok();
    struck && entered && refused(step(book, Call::Enter(first)), 2)
}

// The next number of a fixed sequence that looks random.
fn shuffled(seed: u64) -> u64 {
    seed.wrapping_mul(6364136223846793005)
        .wrapping_add(1442695040888963407)
}

// A call on a book of 6 names, 2 labels and 2 marks; now and then out of range.
fn call_of(seed: u64) -> Call {
    let label = ((seed >> 33) % 3) as u8;
    let from = ((seed >> 37) % 7) as u8;
    let to = ((seed >> 43) % 7) as u8;
    let tie = Tie { label, from, to };
    let fact = MarkFact {
        mark: label,
        name: from,
    };
    match (seed >> 60) & 3 {
        0 => Call::Strike(tie),
        1 => Call::SetMark(fact),
        2 => Call::LiftMark(fact),
        _ => Call::Enter(tie),
    }
}

// How many of 3,000 calls a list book and a board book answer alike, and hold alike after each.
pub fn same_answers(heap: Global) -> Result<usize, AllocError> {
    let counts = Counts {
        names: 6,
        labels: 2,
        marks: 2,
    };
    let mut a = list(heap, counts, 72)?;
    let mut b = board(heap, counts, 2)?;
    let mut seed = 7;
    let mut alike: usize = 0;
    for _ in 0..3000 {
        seed = shuffled(seed);
        let call = call_of(seed);
        let same = step(&mut a, call) == step(&mut b, call);
        if same && a.tie_count() == b.tie_count() && a.mark_count() == b.mark_count() {
            alike = alike.saturating_add(1);
        }
    }
    if agree(&a, &b) { Ok(alike) } else { Ok(0) }
}

// Whether two books of 6 names, 2 labels and 2 marks answer every question alike, out of range too.
fn agree<A: Reading, B: Reading>(a: &A, b: &B) -> bool {
    (0..3).all(|label| (0..7).all(|name| agree_at(a, b, label, name)))
}

// Whether they do for this label or mark and this name.
fn agree_at<A: Reading, B: Reading>(a: &A, b: &B, label: u8, name: u8) -> bool {
    let fact = MarkFact { mark: label, name };
    let forward = Neighbours {
        label,
        direction: Direction::Forward,
        name,
    };
    let backward = Neighbours {
        direction: Direction::Backward,
        ..forward
    };
    a.has_mark(fact) == b.has_mark(fact)
        && (0..8).all(|other| {
            let tie = forward.tie(other);
            a.has_tie(tie) == b.has_tie(tie)
                && a.next(forward, other) == b.next(forward, other)
                && a.next(backward, other) == b.next(backward, other)
        })
}
