// The trees of a component, one after another.
ghost use Rattle.std.specs.Prelude.{◌≡◌, true};
ghost use Rattle.std.specs.Iterator.{YieldsFirstRef, item_count};
ghost use Rattle.memory.specs.Memory.{Held};
ghost use Rattle.trees.specs.Codes.{codes, filled};

// The trees from a place on, each as the slice of its code.
#[derive(Clone, Copy)]
pub struct Trees<'a> {
    rest: &'a [u8],
    ghost whole: { filled rest.now ≡ true },
}

impl<'a> Trees<'a> {
    pub fn new(rest: &'a [u8]) -> Trees<'a>
        requires { Held rest.now }
        ensures { result.rest.now ≡ rest.now }
    {
        Trees { rest }
    }
}

impl<'a> Iterator for Trees<'a> {
    type Item = &'a [u8];

    ghost next_gives = { YieldsFirstRef (λ s. codes s.rest.now) };

    ghost remaining = { item_count (λ s. codes s.rest.now) };

    fn next(&mut self) -> Option<&'a [u8]> {
        let size = *self.rest.first()? as usize;
        let (tree, rest) = self.rest.split_at(size);
        self.rest = rest;
        Some(tree)
    }
}
