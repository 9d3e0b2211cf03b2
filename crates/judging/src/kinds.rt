// The rules by their kinds, as 321 numbers of rules, counted from 0:
//   k        the first rule of kind k
//   65 + r   the first rule after rule r that has its kind
// Where there is none, and in places that are not used, the number of rules: in fixed memory an Option would take twice the room.
ghost use Rattle.rules.specs.Table.{TableFits};
ghost use Rattle.judging.specs.Inner.Firing.{ByKind};

use crate::shape::rule_byte;

// The rules of a table by their kinds.
pub(crate) fn by_kind(table: &[u8; 16384], rules: usize) -> [u16; 321]
    requires { TableFits table.now rules }
    ensures { ByKind table.now rules result }
{
    let none = rules as u16;
    let mut kinds = [none; 321];
    for r in (0..rules).rev() {
        let kind = rule_byte(table, r, 0);
        kinds[65 + r] = kinds[kind];
        kinds[kind] = r as u16;
    }
    kinds
}
