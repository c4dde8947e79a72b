// The faults of rolls, as a table.
use book::counts::Counts;
use roll::roll::{Roll, RollFault};

const NAMES_64: &[u8] =
    b"aa ab ac ad ae af ag ah ai aj ba bb bc bd be bf bg bh bi bj ca cb cc cd ce cf cg ch ci cj da db dc dd de df dg dh di dj ea eb ec ed ee ef eg eh ei ej fa fb fc fd fe ff fg fh fi fj ga gb gc gd";

const NAMES_65: &[u8] =
    b"aa ab ac ad ae af ag ah ai aj ba bb bc bd be bf bg bh bi bj ca cb cc cd ce cf cg ch ci cj da db dc dd de df dg dh di dj ea eb ec ed ee ef eg eh ei ej fa fb fc fd fe ff fg fh fi fj ga gb gc gd ge";

const NAMES_65_THEN_BAD: &[u8] =
    b"aa ab ac ad ae af ag ah ai aj ba bb bc bd be bf bg bh bi bj ca cb cc cd ce cf cg ch ci cj da db dc dd de df dg dh di dj ea eb ec ed ee ef eg eh ei ej fa fb fc fd fe ff fg fh fi fj ga gb gc gd ge Z";

const WORDS_16: &[u8] = b"l0 l1 l2 l3 l4 l5 l6 l7 l8 l9 l10 l11 l12 l13 l14 l15";

const WORDS_17: &[u8] = b"l0 l1 l2 l3 l4 l5 l6 l7 l8 l9 l10 l11 l12 l13 l14 l15 l16";

// The texts of names, labels and marks.
pub type Texts = (&'static [u8], &'static [u8], &'static [u8]);

fn read(texts: &Texts) -> Result<Roll<'static>, RollFault> {
    let (names, labels, marks) = *texts;
    Roll::read(names, labels, marks)
}

// How many of the rolls are read as they should be.
pub fn good_rolls() -> usize {
    ROLLS
        .iter()
        .filter(|(texts, (names, labels, marks))| {
            let counts = Counts {
                names: *names,
                labels: *labels,
                marks: *marks,
            };
            read(texts).is_ok_and(|roll| roll.counts() == counts)
        })
        .count()
}

// How many of the faulty texts are refused as they should be.
pub fn faulty_rolls() -> usize {
    FAULTY
        .iter()
        .filter(|(texts, told)| {
            read(texts).is_err_and(|fault| (fault.number(), fault.list.number(), fault.at())
                == *told)
        })
        .count()
}

// Texts, and how many names, labels and marks the roll has that they make.
pub const ROLLS: [(Texts, (u8, u8, u8)); 6] = [
    ((b"anna", b"", b""), (1, 0, 0)),
    (
        (b"anna bruno lot7 page7", b"grew buys covers", b"tasted"),
        (4, 3, 1),
    ),
    ((b"own", b"own", b"own"), (1, 1, 1)),
    ((b"0 - a9-", b"", b""), (3, 0, 0)),
    ((b"abcdefghijklmnop", b"", b""), (1, 0, 0)),
    ((NAMES_64, WORDS_16, WORDS_16), (64, 16, 16)),
];

// Texts that make no roll, with the number of the fault, that of the list and the place that are told.
pub const FAULTY: [(Texts, (u8, u8, Option<usize>)); 23] = [
    ((b"", b"", b""), (20, 0, None)),
    ((b" ", b"", b""), (5, 0, Some(0))),
    ((b"anna ", b"", b""), (5, 0, Some(5))),
    ((b"anna  bruno", b"", b""), (5, 0, Some(5))),
    ((b" anna", b"", b""), (5, 0, Some(0))),
    ((b"anna Bruno", b"", b""), (4, 0, Some(5))),
    ((b"anna\tbruno", b"", b""), (4, 0, Some(0))),
    ((b"abcdefghijklmnopq", b"", b""), (5, 0, Some(0))),
    ((b"Abcdefghijklmnopq", b"", b""), (4, 0, Some(0))),
    ((b"anna anna", b"", b""), (20, 0, None)),
    ((b"anna anna B", b"", b""), (4, 0, Some(10))),
    ((b"anna", b"grew Buys", b""), (4, 1, Some(5))),
    ((b"anna", b"grew ", b""), (5, 1, Some(5))),
    ((b"anna", b"grew grew", b""), (20, 1, None)),
    ((b"anna", b"", b"x y x"), (20, 2, None)),
    ((b"anna", b"", b"x  y"), (5, 2, Some(2))),
    ((b"anna", b"", b"x\xff"), (4, 2, Some(0))),
    ((b"", b"A", b"A"), (20, 0, None)),
    ((b"anna", b"A", b"A"), (4, 1, Some(0))),
    ((NAMES_65, b"", b""), (20, 0, None)),
    ((NAMES_65_THEN_BAD, b"", b""), (4, 0, Some(195))),
    ((b"anna", WORDS_17, b""), (20, 1, None)),
    ((b"anna", b"", WORDS_17), (20, 2, None)),
];
