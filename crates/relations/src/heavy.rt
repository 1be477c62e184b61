// Which operations are heavy: asked of a written plan's nodes and of a node that is run.
ghost use Rattle.std.specs.Prelude.{◌≡◌};
ghost use Rattle.relations.specs.Nodes.{heavy_number, weight_of};

// 1 for the number of a heavy operation, else 0.
pub fn weight(operation: u32) -> u32
    ensures { result ≡ weight_of (heavy_number operation) }
{
    match operation {
        5 | 8..=11 | 13 => 1,
        _ => 0,
    }
}
