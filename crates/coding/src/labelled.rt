// A system by value, with its labels.
ghost use Rattle.std.specs.Prelude.{◌≤◌};

// A system by value, with its labels: of `sizes` so many places are used as there are components, and of `trees` and `labels` one for each point.
#[derive(Debug, Drop)]
pub struct LabelledSystem {
    pub sizes: [u8; 200],
    pub trees: [u8; 200],
    pub labels: [u8; 200],
    pub components: usize,
    pub points: usize,
    pub ghost few: { components ≤ 200 },
    pub ghost small: { points ≤ 200 },
}

impl LabelledSystem {
    ghost use Rattle.std.specs.Prelude.{◌≡◌};
    ghost use Rattle.coding.specs.Systems.{sizes_of, trees_of, labels_of};

    // How many points each component has.
    pub fn sizes(&self) -> &[u8]
        ensures { result.now ≡ sizes_of self.now }
    {
        &self.sizes[..self.components]
    }

    // The codes of the trees.
    pub fn trees(&self) -> &[u8]
        ensures { result.now ≡ trees_of self.now }
    {
        &self.trees[..self.points]
    }

    // The points of the table, each at the place of its tree.
    pub fn labels(&self) -> &[u8]
        ensures { result.now ≡ labels_of self.now }
    {
        &self.labels[..self.points]
    }
}
