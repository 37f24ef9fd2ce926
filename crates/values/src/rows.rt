// c, k and sign of each kind: one small table, read by values, slopes and fill.
ghost use Rattle.std.specs.Prelude.{◌≡◌, ◌<◌};
ghost use Rattle.values.specs.Rows.{kinds, row_of};

// The argument is c·X / 2^w; the function is its k-th root, or one over that where it falls.
#[derive(Clone, Copy, Debug, PartialEq, Eq)]
pub struct Row {
    pub c: u64,
    pub k: u32,
    pub rising: bool,
}

const ROWS: [Row; 5] = [
    Row {
        c: 1,
        k: 1,
        rising: false,
    },
    Row {
        c: 1,
        k: 2,
        rising: true,
    },
    Row {
        c: 2,
        k: 2,
        rising: true,
    },
    Row {
        c: 1,
        k: 2,
        rising: false,
    },
    Row {
        c: 2,
        k: 2,
        rising: false,
    },
];

// inner: the kind has been checked.
pub fn row_of(kind: u32) -> Row
    requires { kind < kinds }
    ensures { result ≡ row_of kind }
{
    ROWS[kind as usize]
}
