// A session at the console: the texts of the next roll, and the open book with a roll of its own.
use crate::answer::{Answer, Refusal};
use crate::order::{Order, Question, is_remark};
use board_book::board::BoardBook;
use book::refusal::EnterRefusal;
use book::tie::Tie;
use list_book::ListBook;
use policy_reader::reading::read;
use requests::request::{Reply, Request, perform};
use roll::list::List;
use roll::roll::{Roll, RollFault};
use std::alloc::{AllocError, Global};
use std::io;
use std::io::Write;

// The texts of the three lists of a roll.
#[derive(Clone, Drop)]
struct Texts {
    names: Vec<u8>,
    labels: Vec<u8>,
    marks: Vec<u8>,
}

impl Texts {
    fn new(heap: Global) -> Texts {
        Texts {
            names: Vec::new(heap),
            labels: Vec::new(heap),
            marks: Vec::new(heap),
        }
    }

    // The roll that they are, or why they are none.
    fn roll(&self) -> Result<Roll<'_>, RollFault> {
        Roll::read(
            self.names.as_slice(),
            self.labels.as_slice(),
            self.marks.as_slice(),
        )
    }

    // Puts another text in the place of a list's.
    fn put(&mut self, list: List, text: Vec<u8>) {
        match list {
            List::Names => self.names = text,
            List::Labels => self.labels = text,
            List::Marks => self.marks = text,
        }
    }
}

// A book of either make. An enum, since the gate refuses a function that hands out a `dyn` value that it made.
#[derive(Drop)]
enum Book {
    List(ListBook),
    Board(BoardBook),
}

impl Book {
    fn perform(&mut self, request: Request) -> Result<Reply, EnterRefusal> {
        match self {
            Book::List(book) => perform(book, request),
            Book::Board(book) => perform(book, request),
        }
    }
}

// A book that is open, with the texts of its roll.
#[derive(Drop)]
struct Open {
    texts: Texts,
    book: Book,
}

#[derive(Drop)]
pub struct Session {
    heap: Global,
    next: Texts,
    open: Option<Open>,
}

impl Session {
    // No text, and no book.
    pub fn new(heap: Global) -> Session {
        Session {
            heap,
            next: Texts::new(heap),
            open: None,
        }
    }

    // Adds the answer to a line to the output: one line, or nothing for a remark.
    pub fn answer(&mut self, line: &[u8], out: &mut impl Write) -> io::Result<()> {
        if is_remark(line) {
            return Ok(());
        }
        match self.obey(line) {
            Ok(answer) => answer.write_to(out)?,
            Err(refusal) => refusal.write_to(out)?,
        }
        out.write_all(b"\n")
    }

    // Does what a line orders.
    fn obey<'a>(&'a mut self, line: &'a [u8]) -> Result<Answer<'a>, Refusal<'a>> {
        match Order::try_from(line).map_err(|_| Refusal::UnknownCommand(line))? {
            Order::Text(list, text) => self.next.put(list, text.to_vec(self.heap)?),
            Order::OpenList(places) => {
                let counts = self.next.roll()?.counts();
                let row = vec![in self.heap; Tie::default(); usize::from(places)]?;
                self.open(Book::List(ListBook::new(counts, row)))?;
            }
            Order::OpenBoard => {
                let counts = self.next.roll()?.counts();
                let words = vec![in self.heap; 0u64; BoardBook::words_needed(counts)]?;
                self.open(Book::Board(BoardBook::new(counts, words)))?;
            }
            Order::Policy(text) => {
                read(&self.opened()?.texts.roll()?, text)?;
            }
            Order::Ask(question) => return self.ask(question),
        }
        Ok(Answer::Word(b"ok"))
    }

    // Opens an empty book, under the roll of the next texts.
    fn open(&mut self, book: Book) -> Result<(), AllocError> {
        let texts = self.next.clone()?;
        self.open = Some(Open { texts, book });
        Ok(())
    }

    // The book that is open.
    fn opened(&mut self) -> Result<&mut Open, Refusal<'static>> {
        self.open.as_mut().ok_or(Refusal::NoBook)
    }

    // Puts a question to the open book, its words read by the book's roll.
    fn ask<'a>(&'a mut self, question: Question<'a>) -> Result<Answer<'a>, Refusal<'a>> {
        let open = self.opened()?;
        let roll = open.texts.roll()?;
        let request = question.resolve(roll).map_err(Refusal::UnknownWord)?;
        Ok(match open.book.perform(request)? {
            Reply::Done => Answer::Word(b"ok"),
            Reply::Told(true) => Answer::Word(b"yes"),
            Reply::Told(false) => Answer::Word(b"no"),
            Reply::Name(name) => {
                let word = name.and_then(|number| roll.word(List::Names, number));
                Answer::Word(word.unwrap_or(b"none"))
            }
            Reply::Tally(tally) => Answer::Tally(tally),
        })
    }
}
