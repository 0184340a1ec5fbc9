/// How each command is called.
pub(crate) const HELP: &[u8] = b"\
ktask run PROGRAM [COLUMNS] [--workers N] [--superblocks S] [--units U] [--limit L] [--trace]\n\
ktask bench FAMILY N [--workers N]\n\
ktask plain PROGRAM [COLUMNS] [--superblocks S] [--units U] [--limit L] [--trace]\n\
ktask check PROGRAM\n\
ktask print PROGRAM\n\
ktask help\n";
