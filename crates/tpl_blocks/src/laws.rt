// What holds of every template that is read.
ghost use Rattle.tpl_blocks.specs.Laws.{ReadLaw};

/// Lines that are read as a template nest as a template's lines may, so that the laws of templates hold of it.
pub fn read_law()
    ensures { ReadLaw }
{}
