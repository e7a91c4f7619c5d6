//! Changes of values and tests of keys.
ghost use Rattle.std.specs.Prelude.{◌≡◌, Bool};

/// A change that can be made to every value, and always makes the same of the same value.
pub trait Change<V> {
    ghost changed: { Self → V → V };

    /// Changes a value. It takes no memory.
    fn change(&self, value: &mut V)
        ensures { value.new ≡ changed self.now value.old };
}

/// A change of one value together with another object, as an exchange of the two.
pub trait Exchange<V> {
    ghost given: { Self → V → V };

    ghost taken: { Self → V → Self };

    /// Exchanges a value and this object: each becomes what the two were before determine. It takes no memory.
    fn exchange(&mut self, value: &mut V)
        ensures given { value.new ≡ given self.old value.old }
        ensures taken { self.new ≡ taken self.old value.old };
}

/// A test of keys, which always answers the same of the same key.
pub trait KeyTest<K> {
    ghost passes: { Self → K → Bool };

    /// Whether a key passes. It takes no memory.
    fn passes(&self, key: &K) -> bool
        ensures { result ≡ passes self.now key.now };
}
