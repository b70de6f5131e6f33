// The variables of a query, 0 to 7, as eight flags.
ghost use Rattle.std.specs.Prelude.{◌≡◌, false, get_or, set};

// The flag of a variable; there is none past the eighth.
pub fn flag(flags: [bool; 8], v: usize) -> bool
    ensures { result ≡ get_or flags v false }
{
    flags.get(v).copied().unwrap_or(false)
}

// The flags with one more set, or cleared.
pub fn with(mut flags: [bool; 8], v: usize, to: bool) -> [bool; 8]
    ensures { result ≡ set flags v to }
{
    if v < 8 {
        flags[v] = to;
    }
    flags
}
