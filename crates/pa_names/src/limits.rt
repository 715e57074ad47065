// How many ports and variables there are at most.
ghost use Rattle.std.specs.Prelude.{◌≡◌, nat_lt};
ghost use Rattle.pa_names.specs.Names as spec;

/// How many ports a contract, and how many variables one operation, has at most.
pub const MOST_PORTS: u32 = 128;

/// Whether these are more ports, or more variables of one operation, than there may be.
pub fn are_too_many(count: u32) -> bool
    ensures answer { result ≡ nat_lt spec.most_ports count }
    ensures limit { MOST_PORTS ≡ spec.most_ports }
{
    count > MOST_PORTS
}
