//! Laws of the registers. Each function does nothing; its contract is the law.

ghost use Rattle.chip_regs.specs.Bytes.{RegistersKeepBytes, WideByBytes};

/// Every byte of the registers is below 256 at the opening, and stays so.
pub fn registers_keep_bytes()
    ensures { RegistersKeepBytes }
{}

/// DSA, TEMP, SCRATCHA and SCRATCHB are read and written byte by byte as the words that they hold.
pub fn wide_by_bytes()
    ensures { WideByBytes }
{}
