// The sweep: what is not marked becomes FREE, what is marked becomes HEAD again.
#![tactic(auto)]

ghost use Rattle.rules.specs.Planes.{entries_in, IsTable};
ghost use Rattle.sweeper.specs.Sweeps.{TableSwept};

use entries::Table;

// How many objects were kept and blocks freed.
#[derive(Clone, Copy)]
pub struct Swept {
    pub kept: usize,
    pub freed: usize,
}

// All blocks. The objects that are left are those that were kept.
pub fn sweep(t: usize, table: &mut [u8]) -> Swept
    requires { IsTable t table.old }
    ensures { IsTable t table.new × TableSwept (entries_in t table.old) (entries_in t table.new) result }
{
    let before = whole::count(&Table::new(t, &*table));
    whole::sweep(t, &mut *table);
    let after = whole::count(&Table::new(t, &*table));
    Swept {
        kept: after.objects,
        freed: before.used - after.used,
    }
}
