// Policy texts, and what is told of them.
use policy_reader::reading::read;
use roll::roll::Roll;

// A policy text, and the number and the place of the fault that is to be told of it, if any.
pub type Row = (&'static [u8], Option<(u8, usize)>);

// Whether the text of a row is told so under the roll.
pub fn is_told(roll: &Roll, row: &Row) -> bool {
    let (text, fault) = *row;
    read(roll, text)
        .err()
        .map(|fault| (fault.number(), fault.at()))
        == fault
}

pub const TABLE: [Row; 72] = [
    (b"@?q ?q", None),
    (b"! @?q ?q", None),
    (b"@?r / ; >covers <buys ?q", None),
    (b"& @?q %tasted : @?r #lot7 ! @?q @#anna ?r", None),
    (b"@?r $a / >buys & ! ?a ?q", None),
    (b"@?q / = ?r", None),
    (b"@?q / + ; + >grew <covers $b @?b $a & ?a ?b", None),
    (b"@?q #abcdefghijklmnop", None),
    (b"@?q @#abcdefghijklmnop ?q", None),
    (
        b"! ! ! ! ! ! ! ! ! ! ! ! ! ! ! ! ! ! ! ! ! ! ! ! ! ! ! ! ! ! ! ! ! ! ! ! ! ! ! ! ! ! ! ! ! ! ! ! ! ! ! ! ! ! ! ! ! ! ! ! ! ! @?q ?q",
        None,
    ),
    (b"@?q $a $b $a & ?a ?b", None),
    (b"@?Q ?q", Some((4, 0))),
    (b"@?q #Lot7", Some((4, 4))),
    (b"!A @?q ?q", Some((4, 0))),
    (b"@?r / >buys ?Q", Some((4, 12))),
    (b"@?q & %tasted #a_b", Some((4, 14))),
    (b"@?q #abcdefghijklmnoP7", Some((4, 4))),
    (b" ", Some((5, 0))),
    (b"@?q ", Some((5, 4))),
    (b"@?q  ?q", Some((5, 4))),
    (b"!a @?q ?q", Some((5, 0))),
    (b"@?q #", Some((5, 4))),
    (b"@?q #abcdefghijklmnopq", Some((5, 4))),
    (b"@? ?q", Some((5, 0))),
    (b"@# ?q", Some((5, 0))),
    (b"@?r / =x ?q", Some((5, 6))),
    (b"@?x ?q", Some((6, 0))),
    (b"@?q ?qq", Some((6, 4))),
    (b"@?q $q ?q", Some((6, 4))),
    (b"@?q >nolabel", Some((6, 4))),
    (b"@?q & %tasted #carla", Some((6, 14))),
    (b"@?q %bitter", Some((6, 4))),
    (b"q", Some((7, 0))),
    (b"@q ?q", Some((7, 0))),
    (b"@", Some((7, 0))),
    (b"@?q *", Some((7, 4))),
    (b"@?q & ?q ?r?", Some((4, 9))),
    (b"@?q & ?q -x", Some((7, 9))),
    (b"@?q @", Some((7, 4))),
    (b">buys", Some((8, 0))),
    (b"@?r >buys", Some((8, 4))),
    (b"@?r / ?q ?q", Some((8, 6))),
    (b"@?r / ; >buys ?q", Some((8, 14))),
    (b"@?q + >buys", Some((8, 4))),
    (b"@?r / >buys =", Some((8, 12))),
    (b"", Some((9, 0))),
    (b"@?r", Some((9, 3))),
    (b"& ?a", Some((9, 4))),
    (b"@?r / >covers", Some((9, 13))),
    (b"@?r & %tasted", Some((9, 13))),
    (
        b"! ! ! ! ! ! ! ! ! ! ! ! ! ! ! ! ! ! ! ! ! ! ! ! ! ! ! ! ! ! ! ! ! ! ! ! ! ! ! ! ! ! ! ! ! ! ! ! ! ! ! ! ! ! ! ! ! ! ! ! ! ! ! !",
        Some((9, 127)),
    ),
    (b"@?r ?q ?q", Some((10, 7))),
    (b"@?q ?q ", Some((10, 7))),
    (b"?q ?q", Some((10, 3))),
    (b"@?q ?q Q", Some((10, 7))),
    (
        b"! ! ! ! ! ! ! ! ! ! ! ! ! ! ! ! ! ! ! ! ! ! ! ! ! ! ! ! ! ! ! ! ! ! ! ! ! ! ! ! ! ! ! ! ! ! ! ! ! ! ! ! ! ! ! ! ! ! ! ! ! ! @?q ?q ?q",
        Some((10, 131)),
    ),
    (
        b"! ! ! ! ! ! ! ! ! ! ! ! ! ! ! ! ! ! ! ! ! ! ! ! ! ! ! ! ! ! ! ! ! ! ! ! ! ! ! ! ! ! ! ! ! ! ! ! ! ! ! ! ! ! ! ! ! ! ! ! ! ! ! @?q ?q",
        Some((11, 130)),
    ),
    (
        b"! ! ! ! ! ! ! ! ! ! ! ! ! ! ! ! ! ! ! ! ! ! ! ! ! ! ! ! ! ! ! ! ! ! ! ! ! ! ! ! ! ! ! ! ! ! ! ! ! ! ! ! ! ! ! ! ! ! ! ! ! ! ! ! *",
        Some((11, 128)),
    ),
    (
        b"! ! ! ! ! ! ! ! ! ! ! ! ! ! ! ! ! ! ! ! ! ! ! ! ! ! ! ! ! ! ! ! ! ! ! ! ! ! ! ! ! ! ! ! ! ! ! ! ! ! ! ! ! ! ! ! ! ! ! ! ! ! ! ! ",
        Some((11, 128)),
    ),
    (b"@?r ?a", Some((12, 4))),
    (b"@?r @?b ?q", Some((12, 4))),
    (b"@?q & $a ?a ?a", Some((12, 12))),
    (b"?a", Some((12, 0))),
    (b"& ?q @?q ?b", Some((12, 9))),
    (b"@?q $a & ?a ?b", Some((12, 12))),
    (b"?q", Some((13, 0))),
    (b"@#anna ?q", Some((13, 0))),
    (b"! ! ?r", Some((13, 4))),
    (b"& @?q ?q ?q", Some((13, 9))),
    (b": @?q ?q $a @?q ?a", Some((13, 9))),
    (b"/ >buys ?q", Some((13, 0))),
    (b"& ! @?r ?q : @?q ?r %tasted", Some((13, 20))),
];
