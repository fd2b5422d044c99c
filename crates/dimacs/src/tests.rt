//! Texts that are read or refused, and the answers to small sets.

use crate::answering::tell;
use crate::printing::text;
use crate::reading::{Expected, ReadFail, read_clauses};
use resolution_log::variables;
use std::process::Abort;
use std::test::Fail;

const REFUSED: [(&[u8], u32, Expected); 13] = [
    (b"", 0, Expected::Header),
    (b"c nothing\n", 1, Expected::Header),
    (b"1 0\n", 1, Expected::Header),
    (b"p\n", 1, Expected::Header),
    (b"p dnf 1 1\n", 1, Expected::Header),
    (b"p cnf 1\n", 1, Expected::Number),
    (b"p cnf 1 1 1\n", 1, Expected::Header),
    (b"p cnf 1 1\np cnf 1 1\n", 2, Expected::OneHeader),
    (b"c\np cnf 1 1\nx 0\n", 3, Expected::Number),
    (b"p cnf 1 1\n4294967296 0\n", 2, Expected::Number),
    (b"p cnf 2 1\n-3 0\n", 2, Expected::Variable),
    (b"p cnf 2 1\n1 2\n", 2, Expected::Zero),
    (b"p cnf 2 2\n1 2 0\n", 2, Expected::Count),
];

#[test]
fn refused_texts(rt: HostRuntime) -> Result<(), Fail> {
    for (source, line, expected) in REFUSED {
        match read_clauses(rt.alloc(), source) {
            Err(fail) => assert!(rt; fail == ReadFail::Line(line, expected)),
            Ok(_) => assert!(rt; false),
        }
    }
    Ok(())
}

const ANSWERS: [(&[u8], u64, u8, &str); 6] = [
    (b"p cnf 0 0\n", 9, 10, "s SATISFIABLE\nv 0\n"),
    (
        b"p cnf 3 3\n1 -2\n0 2 0\r\n\t-3 0\n%\n0\n",
        9,
        10,
        "s SATISFIABLE\nv 1\nv 2\nv -3\nv 0\n",
    ),
    (
        b"c one\np cnf 1 2\n1 0 -1 0\n",
        9,
        20,
        "c chains 1\nc pairs 1\ns UNSATISFIABLE\n",
    ),
    (
        b"p cnf 1 1\n0\n",
        9,
        20,
        "c chains 1\nc pairs 0\ns UNSATISFIABLE\n",
    ),
    (
        b"p cnf 2 4\n1 2 0 1 -2 0 -1 2 0 -1 -2 0",
        1,
        0,
        "c chains 1\nc pairs 1\ns UNKNOWN\n",
    ),
    (
        b"p cnf 4294967295 1\n-4294967295 0",
        9,
        10,
        "s SATISFIABLE\nv -4294967295\nv 0\n",
    ),
];

#[test]
fn answers(rt: HostRuntime) -> Result<(), Fail> {
    for (source, learn, status, lines) in ANSWERS {
        let Ok(clauses) = read_clauses(rt.alloc(), source) else {
            assert!(rt; false);
            return Ok(());
        };
        assert!(rt; learn > 0);
        let told = tell(rt.alloc(), &clauses, learn)?;
        assert!(rt; told.status() == status);
        let vars = variables(rt.alloc(), &clauses)?;
        let got = text(rt.alloc(), &vars, &told)?;
        assert!(rt; got.as_str() == lines);
    }
    Ok(())
}
