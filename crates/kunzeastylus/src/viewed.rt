// The whole cabinet after a run, exported: as numbers in a fixed layout (docs/FORMATS.md, "View").
ghost use Rattle.view.specs.Views.{Views};

use view::view;

// The view of a table and a schedule, whatever bytes they are, to the front of a lent list: 0, or the number that refuses it, 1 to 10, 47 or 54.
pub fn ks_view(table: &[u8], schedule: &[u8], out: &mut [u32]) -> u32
    ensures { Views table.now schedule.now out.old result out.new }
{
    match view(table, schedule, out) {
        Ok(()) => 0,
        Err(refusal) => refusal.number() as u32,
    }
}
