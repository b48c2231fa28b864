ghost use Rattle.std.specs.Prelude.{◌&&◌, ◌==◌};
ghost use Rattle.std.proofs.Common.{rules};

use super::*;

#[derive(Clone, Copy)]
struct Row {
    day: u16,
    name: u32,
}

impl Keyed for Row {
    type Key = Row;

    ghost early = { λ key row. (row.day == key.day) };

    ghost has = { λ key row. (row.day == key.day) && row.name == key.name };

    ghost covers = { Prim.search rules };

    fn may_have(&self, key: &Row) -> bool {
        self.day == key.day
    }

    fn has_key(&self, key: &Row) -> bool {
        self.day == key.day && self.name == key.name
    }
}

const ROWS: [Row; 5] = [
    Row { day: 1, name: 10 },
    Row { day: 2, name: 10 },
    Row { day: 2, name: 20 },
    Row { day: 2, name: 20 },
    Row { day: 3, name: 30 },
];

#[test]
fn finds_the_first_row_with_the_key(rt: HostRuntime) {
    let rows = ROWS;
    let cases = [
        (1, 10, Some(0)), // the first row
        (3, 30, Some(4)), // the last
        (2, 20, Some(2)), // the first of two, past a row that has only the day
        (3, 20, None), // the day of a row that has another name
        (4, 30, None), // no such day
    ];
    for (day, name, answer) in cases {
        let key = Row { day, name };
        assert_eq!(rt; find(&rows, &key), answer);
        assert_eq!(rt; find(&rows[..0], &key), None); // no rows
    }
}
