// A root model whose answer is written.
use area::sections::Sizes;
use ast::numbers::Bounds;

// Its number, its instances, the sizes of the answer's sections, and time's bounds.
#[derive(Clone, Copy)]
pub struct Root {
    pub model: usize,
    pub instances: usize,
    pub sizes: Sizes,
    pub time: Bounds,
}
