// The names of a script by number, in the order of first appearance.
ghost use Rattle.std.specs.Prelude.{◌≡◌, ◌^◌, ◌<◌, [], Some, slice_get, vec_len, IfOk, OnOk};
ghost use Rattle.rx_syntax.specs.Tokens.{IsName};
ghost use Rattle.rx_syntax.specs.Lexical.{padded};
ghost use Rattle.rx_syntax.specs.Names.{IsTable, Numbers};
ghost use Rattle.rx_syntax.specs.Tables.{names_of};

use indexmap::IndexSet;
use rx_base::NoMemory;
use std::alloc::Global;

// The names so far, and each filled up with zeros, to look it up.
#[derive(Drop)]
pub(crate) struct NameTable {
    pub(crate) filled: IndexSet<[u8; 16]>,
    pub(crate) names: Vec<Vec<u8>>,
}

// No names.
pub(crate) fn no_names(alloc: Global) -> NameTable
    ensures table { IsTable result }
    ensures empty { result.names.items ≡ [] }
{
    NameTable {
        filled: IndexSet::new(alloc),
        names: Vec::new(alloc),
    }
}

// The number of a name, which goes last where it is new. After an `Err` the table may hold it filled up alone, and serves no more.
pub(crate) fn number_of(
    table: &mut NameTable,
    alloc: Global,
    word: &[u8],
    filled: [u8; 16],
) -> Result<u32, NoMemory>
    requires name { IsName word.now }
    requires filled { filled ≡ padded word.now }
    requires table { IsTable table.old }
    requires room { vec_len table.old.names < 2 ^ 31 }
    ensures table { OnOk result (IsTable table.new) }
    ensures found { IfOk result (λ n. slice_get (names_of table.new.names) n ≡ Some word.now) }
    ensures numbers { IfOk result (λ n. Numbers (names_of table.old.names) n (names_of table.new.names)) }
{
    let (number, added) = table.filled.insert_full(filled)?;
    if !added {
        return Ok(number as u32);
    }
    table.names.push(word.to_vec(alloc)?)?;
    Ok(number as u32)
}
