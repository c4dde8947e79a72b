// Three lists of words, each the words of a text, and their numbers.
pub mod reading;

ghost use Rattle.std.specs.Prelude.{◌≡◌, None};
ghost use Rattle.text.specs.Text.{words};
ghost use Rattle.roll.specs.Lists.{list_fault};
ghost use Rattle.roll.specs.declared.list.List.TheVariants.{Names, Labels, Marks};

use crate::list::{List, ListFault};

// Three lists of words, each borrowed as its text. A word's number is its place in its list, from 0.
#[derive(Clone, Copy)]
pub struct Roll<'a> {
    names: &'a [u8],
    labels: &'a [u8],
    marks: &'a [u8],
    // each text makes its list: its words have no fault
    ghost names_fine: { list_fault Names (words names.now) ≡ None },
    ghost labels_fine: { list_fault Labels (words labels.now) ≡ None },
    ghost marks_fine: { list_fault Marks (words marks.now) ≡ None },
}

// Why three texts are refused: the first faulty list, and its fault whole.
#[derive(Clone, Copy, Debug, PartialEq, Eq)]
pub struct RollFault {
    pub list: List,
    pub fault: ListFault,
}
