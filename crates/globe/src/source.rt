// "Orientation and radii name their source, the pool or the built-in table; the two are never blended, since a pole of one report with
// a meridian of another is an orientation nobody published."
#[derive(Clone, Copy)]
pub enum Source {
    Pool,
    Builtin,
}
