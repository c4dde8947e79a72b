// What a line of the console asks for.
use book::tie::Direction;
use requests::number::{byte_number, decimal};
use roll::list::List;
use text::pieces::Pieces;

// What is to be done about a tie or a mark fact. An enum, since the gate refuses a function that hands out one that
// it made.
#[derive(Clone, Copy, Debug, PartialEq, Eq)]
pub enum Verb {
    // put it into the book: enter, set
    Put,
    // take it out of the book: strike, lift
    Take,
    // tell whether it is there
    Ask,
}

// What is asked of the open book, its operands still as they stand in the line.
#[derive(Clone, Copy)]
pub enum Question<'a> {
    // label, from-name, to-name
    OfTie(Verb, &'a [u8], &'a [u8], &'a [u8]),
    // mark, name
    OfMark(Verb, &'a [u8], &'a [u8]),
    // label, direction, name, lowest name that may be told
    Next(&'a [u8], Direction, &'a [u8], u8),
    Tally,
}

// What a line asks for.
#[derive(Clone, Copy)]
pub enum Order<'a> {
    // the text of a list of the next book's roll
    Text(List, &'a [u8]),
    // a list book of so many places
    OpenList(u16),
    OpenBoard,
    // the text of a policy
    Policy(&'a [u8]),
    Ask(Question<'a>),
}

// Why a line gives no order: it has no command, or one with the wrong operands.
#[derive(Clone, Copy, Debug, PartialEq, Eq)]
pub struct UnknownOrder;

// The order that a line gives.
impl<'a> TryFrom<&'a [u8]> for Order<'a> {
    type Error = UnknownOrder;

    fn try_from(line: &'a [u8]) -> Result<Order<'a>, UnknownOrder> {
        of_text(line).or_else(|| of_words(line)).ok_or(UnknownOrder)
    }
}

// Whether a line gives no order and no fault: a remark, or an empty line.
pub fn is_remark(line: &[u8]) -> bool {
    line.is_empty() || line.starts_with(b"--")
}

// An order whose one operand is a text.
fn of_text<'a>(line: &'a [u8]) -> Option<Order<'a>> {
    for list in [List::Names, List::Labels, List::Marks] {
        if let Some(text) = text_behind(line, key(list)) {
            return Some(Order::Text(list, text));
        }
    }
    Some(Order::Policy(text_behind(line, b"policy")?))
}

// The command that gives the text of a list.
fn key(list: List) -> &'static [u8] {
    match list {
        List::Names => b"names",
        List::Labels => b"labels",
        List::Marks => b"marks",
    }
}

// What follows the one space behind the key; nothing where the line is the key alone.
fn text_behind<'a>(line: &'a [u8], key: &[u8]) -> Option<&'a [u8]> {
    let rest = line.strip_prefix(key)?;
    match rest {
        [] => Some(rest),
        [b' ', text @ ..] => Some(text),
        _ => None,
    }
}

// An order whose operands are words.
fn of_words<'a>(line: &'a [u8]) -> Option<Order<'a>> {
    let mut words = Pieces::words(line);
    match words.next()?.bytes {
        b"enter" => of_tie(Verb::Put, words),
        b"strike" => of_tie(Verb::Take, words),
        b"tie" => of_tie(Verb::Ask, words),
        b"set" => of_mark(Verb::Put, words),
        b"lift" => of_mark(Verb::Take, words),
        b"mark" => of_mark(Verb::Ask, words),
        b"next" => of_next(words),
        b"counts" => {
            end(words)?;
            Some(Order::Ask(Question::Tally))
        }
        b"book" => of_book(words),
        _ => None,
    }
}

// Nothing, where no word is left.
fn end(words: Pieces<'_>) -> Option<()> {
    words.is_over().then_some(())
}

// The words are taken one after another, here and below, and not by a count as a const parameter: the toolchain does
// not take an array of references in a case of an enum.
fn of_tie<'a>(verb: Verb, mut words: Pieces<'a>) -> Option<Order<'a>> {
    let label = words.next()?;
    let from = words.next()?;
    let to = words.next()?;
    end(words)?;
    Some(Order::Ask(Question::OfTie(verb, label.bytes, from.bytes, to.bytes)))
}

fn of_mark<'a>(verb: Verb, mut words: Pieces<'a>) -> Option<Order<'a>> {
    let mark = words.next()?;
    let name = words.next()?;
    end(words)?;
    Some(Order::Ask(Question::OfMark(verb, mark.bytes, name.bytes)))
}

fn of_next<'a>(mut words: Pieces<'a>) -> Option<Order<'a>> {
    let label = words.next()?;
    let way = words.next()?;
    let name = words.next()?;
    let at = words.next()?;
    end(words)?;
    let direction = match way.bytes {
        b"forward" => Direction::Forward,
        b"backward" => Direction::Backward,
        _ => return None,
    };
    let at = byte_number(at.bytes)?;
    Some(Order::Ask(Question::Next(label.bytes, direction, name.bytes, at)))
}

fn of_book<'a>(mut words: Pieces<'a>) -> Option<Order<'a>> {
    match words.next()?.bytes {
        b"board" => {
            end(words)?;
            Some(Order::OpenBoard)
        }
        b"list" => {
            let places = words.next()?;
            end(words)?;
            Some(Order::OpenList(decimal(places.bytes, 4096)?))
        }
        _ => None,
    }
}
