// The rules of lent lines as a table of bytes.
#![tactic(auto)]

mod table;

ghost use Rattle.rules.specs.Answer.{RulesMeet, rules_say};
ghost use Rattle.rules.specs.Inner.Bytes.{FirstWrong};

use sheet::Refusal;

// Why lent lines give no rules.
#[derive(Clone, Copy)]
pub enum RulesRefusal {
    // Lent lines that are no sheet, with the first wrong line.
    LineWrong(usize),
    // Room for fewer than 16,384 bytes is lent.
    TableShort,
}

// Puts the rules of lent lines into the first 16,384 bytes of the lent table, 64 for each rule, and answers how many there are. A refusal
// changes nothing.
pub fn rules_of(lines: &[u32], table: &mut [u8]) -> Result<usize, RulesRefusal>
    ensures { RulesMeet lines.now table.old (rules_say result) table.new }
{
    if table.len() < 16384 {
        return Err(RulesRefusal::TableShort);
    }
    match first_wrong(lines) {
        Some(line) => Err(RulesRefusal::LineWrong(line)),
        None => Ok(table::fill(lines, &mut table[..16384])),
    }
}

// The first wrong line; None where the lent lines are a sheet. Write tests them before it looks at the lent text.
fn first_wrong(lines: &[u32]) -> Option<usize>
    ensures { FirstWrong lines.now result }
{
    let mut text = [0u8; 1];
    match sheet::write(lines, &mut text) {
        Ok(_) => None,
        Err(refusal) => match refusal {
            Refusal::LineWrong(line) => Some(line),
            _ => None,
        },
    }
}
