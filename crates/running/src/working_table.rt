// Memory that the caller lends to a run, in grades of whichever scale is used. Every call says that it still holds the slice that
// was lent, which the caller needs to read it again.
#[derive(Drop)]
pub struct WorkingTable<'a, S> {
    pub grades: &'a mut [S],
}
