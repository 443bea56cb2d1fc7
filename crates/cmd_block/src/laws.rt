//! Laws of the layout. Each function does nothing; its contract is the law.

ghost use Rattle.cmd_block.specs.Block.{IsLayout, NamesOffsets};
ghost use Rattle.cmd_block.specs.Laws.{FieldsApart, FieldsFit, WritesOneField};

/// The constants are those of the layout: the ranges behind the fields, the values of STATE, and the offsets of fields.
pub fn is_layout()
    ensures layout { IsLayout }
    ensures offsets { NamesOffsets }
{}

/// A field is an aligned word below the message bytes; two fields of one block share no byte, nor do fields of two
/// blocks. So a write of a field changes this field alone.
pub fn fields_lie_apart()
    ensures fit { FieldsFit }
    ensures apart { FieldsApart }
    ensures one { WritesOneField }
{}
