ghost use Rattle.std.specs.Prelude.{◌≡◌};
ghost use Rattle.flow_types.specs.Expressions.{cut};

/// The longest prefix of at most so many bytes that ends between code points; nothing is copied.
pub fn cut(text: &str, most: usize) -> &str
    ensures { result.now ≡ cut most text.now }
{
    let place = text.floor_char_boundary(most);
    text.split_at(place).0
}
