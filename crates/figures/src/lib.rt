// The figures of states, of either edition: by a sheet of edition 1 a state's cost, the sum of its costs, and by one of edition 2
// the product of its weights. A figure is found whole from the plant's table, or from its neighbour's with one variable's
// part exchanged, and the figures of listed codes are filled into a list. A word holds any product, of eight weights below
// 256 at most; nothing relies on an entry being a weight but what is said of products.
#![tactic(auto)]

ghost use Rattle.std.specs.Prelude.{◌≡◌, ℕ, ◌+◌, ◌*◌, ◌^◌, ◌<◌, ◌≤◌, true, List, map, length, take, slice_index};
ghost use Rattle.model.specs.Lists.{filled};
ghost use Rattle.model.specs.Digits.{digits};
ghost use Rattle.model.specs.Order.{join, figure_of, cost, chance};
ghost use Rattle.theory.specs.Words.{sixteens};
ghost use Rattle.figures.specs.Weights.{ReadsWeights};
ghost use Rattle.figures.specs.Answers.{Answers};

use limits::VALUES;
use words::digit_at;

// Weights are below this.
const WEIGHTS: u64 = 256;

// Products of seven weights are below this.
const SEVEN_WEIGHTS: u64 = 1 << 56;

// A table's weight as a number that products can be made of.
fn factor(x: u16) -> u64
    ensures { (x < 256 → result ≡ x) × (result ≤ 255) }
{
    u64::from(x) % WEIGHTS
}

// The product of two numbers, where a word holds it.
fn times(a: u64, b: u64) -> u64
    requires { a * b < 2 ^ 64 }
    ensures { result ≡ a * b }
{
    a * b
}

// The cost with one variable's cost taken out and another put in.
fn exchanged_cost(sum: u64, old: u16, new: u16) -> u64
    ensures { (rest : ℕ) → sum ≡ old + rest → rest < 2 ^ 56 → result ≡ new + rest }
{
    sum.wrapping_sub(u64::from(old))
        .wrapping_add(u64::from(new))
}

// The product with one variable's weight taken out.
fn without(product: u64, weight: u16) -> u64
    ensures { (rest : ℕ) → product ≡ weight * rest → 1 ≤ weight → result ≡ rest }
{
    if weight == 0 {
        return 0;
    }
    product / u64::from(weight)
}

// The product with one variable's weight taken out and another put in.
fn exchanged_product(product: u64, old: u16, new: u16) -> u64
    ensures { (rest : ℕ) → product ≡ old * rest → 1 ≤ old → new < 256 → rest < 2 ^ 56 → result ≡ new * rest }
{
    times(without(product, old) % SEVEN_WEIGHTS, factor(new))
}

// The figure with one variable's part taken out and another put in.
pub fn exchanged(figure: u64, old: u16, new: u16, weighed: bool) -> u64
    ensures { (rest : ℕ) → figure ≡ join weighed old rest → (weighed ≡ true → (1 ≤ old) × (new < 256)) → rest < 2 ^ 56 → result ≡ join weighed new rest }
{
    if weighed {
        return exchanged_product(figure, old, new);
    }
    exchanged_cost(figure, old, new)
}

// The product of the d weights of the state with this code, from a table with sixteen weights for each variable.
pub fn product(code: u64, prices: &[u16], d: usize) -> u64
    requires { (d ≤ 8) × (16 * d ≤ length prices.now) }
    ensures product { ReadsWeights d prices.now code → result ≡ chance (sixteens d prices.now) (digits 16 16 code) }
    ensures most { result ≤ 255 ^ 8 }
{
    let mut so_far = 1;
    for v in 0..d {
        so_far = times(so_far, factor(prices[VALUES * v + digit_at(code, v)]));
    }
    so_far
}

// The figure of the state with this code: its cost, or the product of its weights.
pub fn figure(code: u64, prices: &[u16], d: usize, weighed: bool) -> u64
    requires { (d ≤ 16) × (weighed ≡ true → d ≤ 8) × (16 * d ≤ length prices.now) }
    ensures { (weighed ≡ true → ReadsWeights d prices.now code) → result ≡ figure_of weighed (sixteens d prices.now) (digits 16 16 code) }
{
    if !weighed {
        return u64::from(words::cost(code, prices, d));
    }
    product(code, prices, d)
}

// Fills the first places with the figures of the codes.
fn fill<T: Copy, F: Fn(u64) -> T>(figures: &mut [T], codes: &[u64], figure: F)
    requires { (length codes.now ≤ length figures.old) × F.IsAlwaysCallable figure }
    ensures { (g : ℕ → T) → Answers g (F.post figure) codes.now → figures.new ≡ filled (map g codes.now) figures.old }
{
    for (i, code) in codes.iter().enumerate() {
        figures[i] = figure(*code);
    }
}

// Fills the first places with the costs of the first n codes.
pub fn fill_costs(costs: &mut [u32], codes: &[u64], n: usize, prices: &[u16], d: usize)
    requires { (n ≤ length codes.now) × (n ≤ length costs.old) × (d ≤ 16) × (16 * d ≤ length prices.now) }
    ensures { costs.new ≡ filled (map (λ c. cost (sixteens d prices.now) (digits 16 16 c)) (take n codes.now)) costs.old }
{
    fill(costs, &codes[..n], |code| words::cost(code, prices, d));
}

// Fills the first places with the products of the first n codes.
pub fn fill_products(products: &mut [u64], codes: &[u64], n: usize, prices: &[u16], d: usize)
    requires { (n ≤ length codes.now) × (n ≤ length products.old) × (d ≤ 8) × (16 * d ≤ length prices.now) }
    ensures { ((i : ℕ) → i < n → ReadsWeights d prices.now (slice_index codes.now i)) → products.new ≡ filled (map (λ c. chance (sixteens d prices.now) (digits 16 16 c)) (take n codes.now)) products.old }
{
    fill(products, &codes[..n], |code| product(code, prices, d));
}
