// What a run of trials is lent, and what is known of it.
ghost use Rattle.fillings.specs.Lent.{lent, lent_job};
ghost use Rattle.limited.specs.inner.Ran.{Readied};

// An accepted job's lists, each by its place, the signs of its points, and the worth of each four.
#[derive(Drop)]
pub(crate) struct Survey<'a> {
    pub(crate) lists: &'a [&'a [u8]; 4],
    pub(crate) ints: &'a [&'a [i32]; 2],
    pub(crate) rows: &'a [u16],
    pub(crate) worths: &'a [u32; 1820],
    ghost readied: { Readied (lent_job lists.now ints.now) rows.now (lent lists.now 3) worths.now },
}
