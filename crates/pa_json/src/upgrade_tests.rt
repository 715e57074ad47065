// What diagrams are upgraded to, and why others are refused.
use crate::tests::written_out;
use crate::{DiagramFault, Path, upgrade};
use std::alloc::{AllocError, Global};
use std::test::Fail;

// The text that a diagram of version 1 is upgraded to, without its line feed.
const UPGRADES: &str =
    r#"{"constants":{},"contracts":[{"assumptions":[],"guarantees":["x <= 3"],"inputs":[],"name":"A","outputs":["x"]},{"assumptions":[],"guarantees":["x <= 1"],"inputs":[],"name":"B","outputs":["x"]}],"version":2} <- {"version":1,"contracts":[{"name":"A","inputs":[],"outputs":["x"],"assumptions":[],"guarantees":["x <= 3"]},{"name":"B","inputs":[],"outputs":["x"],"assumptions":[],"guarantees":["x <= 1"]}]}
{"constants":{},"contracts":[],"version":2} <- {"version":1,"contracts":[]}
{"constants":{},"contracts":[],"nominal":{},"parts":[],"version":2} <- {"version":1,"contracts":[],"parts":[],"nominal":{}}
{"constants":{},"contracts":[{"assumptions":["0 <= i"],"guarantees":["x <= 2 i"],"inputs":["i"],"name":"A","outputs":["x"]}],"nominal":{"b":-7,"y":"0.50"},"parts":[{"contract":"A","name":"P","wires":{"i":"x","x":"y"}},{"contract":"A","name":"Q"}],"version":2} <- {"zoo":[1.5],"version":1,"constants":{"cap":3},"contracts":[{"unit":"kg","outputs":["x"],"name":"A","inputs":["i"],"guarantees":["x <= 2 i"],"assumptions":["0 <= i"]}],"parts":[{"wires":{"x":"y","i":"x"},"contract":"A","name":"P","at":1e3},{"contract":"A","name":"Q"}],"nominal":{"y":"1/2","b":-7,"y":"0.50"}}
{"constants":{},"contracts":[{"assumptions":["i\t<= 1"],"guarantees":["x <= 1/2"],"inputs":["i"],"name":"A","outputs":["x"]}],"version":2} <- {"version":1,"contracts":[{"name":"A","inputs":["\u0069"],"outputs":["x"],"assumptions":["i\t<= 1"],"guarantees":["x <= 1\/2"]}]}
{"constants":{},"contracts":[],"version":2} <- {"version":1,"contracts":[]}~1048548  ~"#;

// What is told of a text that is not upgraded.
const REFUSALS: &str = r#"json <- {"version":1
too long <- {"version":1,"contracts":[]}~1048549  ~
shape at / <- []
version <- {}
version <- {"version":3}
version <- {"version":2,"contracts":3}
version <- {"constants":{},"contracts":[],"version":2}
shape at /contracts <- {"version":1}
shape at /nominal <- {"version":1,"contracts":[],"nominal":{"x":1.5}}
contract at /contracts/0/outputs <- {"version":1,"contracts":[{"name":"A","inputs":[],"outputs":["x","x"],"assumptions":[],"guarantees":[]}]}
term at /contracts/0/guarantees/0 <- {"version":1,"contracts":[{"name":"A","inputs":[],"outputs":["x"],"assumptions":[],"guarantees":["x <= cap"]}],"constants":{"cap":3}}"#;

// A fault's kind and its path.
fn at(alloc: Global, kind: &str, path: &Path) -> Result<String, AllocError> {
    let path = str::from_utf8(&path.bytes).unwrap_or("?");
    format!(in alloc; "{kind} at {path}")
}

// What is told of a fault, without its detail.
fn told(alloc: Global, fault: &DiagramFault) -> Result<String, AllocError> {
    match fault {
        DiagramFault::Memory => String::from_str(alloc, "memory"),
        DiagramFault::TooLong => String::from_str(alloc, "too long"),
        DiagramFault::Json => String::from_str(alloc, "json"),
        DiagramFault::Version => String::from_str(alloc, "version"),
        DiagramFault::Shape { path } => at(alloc, "shape", path),
        DiagramFault::Term { path, .. } => at(alloc, "term", path),
        DiagramFault::Contract { path, .. } => at(alloc, "contract", path),
        DiagramFault::Wire { path, .. } => at(alloc, "wire", path),
        DiagramFault::Limit { path } => at(alloc, "limit", path),
    }
}

// The text that a case is upgraded to, or what is told of its fault.
fn upgraded(alloc: Global, case: &str) -> Result<String, AllocError> {
    let text = written_out(alloc, case)?;
    let bytes = Vec::from_slice(alloc, text.as_bytes())?;
    match upgrade(alloc, &bytes) {
        Ok(new) => String::from_str(alloc, str::from_utf8(&new).unwrap_or("?")),
        Err(fault) => told(alloc, &fault),
    }
}

// The first line of a table that is upgraded to another text than the one before its arrow and this end, as it is
// upgraded; none is empty.
fn upgraded_otherwise(alloc: Global, table: &str, end: &str) -> Result<String, AllocError> {
    for line in table.lines() {
        let (want, case) = line.split_once(" <- ").unwrap_or(("", line));
        let seen = upgraded(alloc, case)?;
        let want = format!(in alloc; "{want}{end}")?;
        if seen.as_str() != want.as_str() {
            return Ok(seen);
        }
    }
    Ok(String::new(alloc))
}

#[test]
fn what_the_layout_names_is_kept_in_version_2(rt: HostRuntime) -> Result<(), Fail> {
    let otherwise = upgraded_otherwise(rt.alloc(), UPGRADES, "\n")?;
    assert_eq!(rt; otherwise.as_str(), "");
    Ok(())
}

#[test]
fn the_first_fault_is_told_and_nothing_is_upgraded(rt: HostRuntime) -> Result<(), Fail> {
    let otherwise = upgraded_otherwise(rt.alloc(), REFUSALS, "")?;
    assert_eq!(rt; otherwise.as_str(), "");
    Ok(())
}
