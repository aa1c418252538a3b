// Records as instructions of the built-in rows.
use admission::admit::admit;
use admission::instruction::Instruction;
use isa::built_in::BuiltIn;
use isa::record::Record;
use std::test::Fail;

pub(crate) fn instruction(bytes: [u8; 8]) -> Result<Instruction, Fail> {
    let (record, _) = Record::read(&bytes)?;
    Ok(admit(&BuiltIn, record)?)
}
