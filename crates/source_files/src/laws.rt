//! What holds of every source and every file.
ghost use Rattle.source_files.specs.Images.{ReadsBack};
ghost use Rattle.source_files.specs.Sources.{OneAssembly};

/// A source has at most one image and at most one first fault, and never both.
pub fn one_assembly()
    ensures { OneAssembly }
{}

/// The bytes of words are read as the same words, and no byte is left.
pub fn reads_back()
    ensures { ReadsBack }
{}
