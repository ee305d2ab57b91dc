//! Looking for a record by its number.
ghost use Rattle.std.specs.Prelude.{◌≡◌};
ghost use Rattle.stores.specs.Tables.{known};

use jobs::numbered::Numbered;

/// Whether a record of this number stands in the list.
pub fn has_number<T: Numbered>(records: &[T], number: u16) -> bool
    ensures { result ≡ known T.Numbered.number number records.now }
{
    records.iter().any(|record| record.number() == number)
}
