// The pair of a steady forecast, and the letters at which the rule holds.
ghost use Rattle.std.specs.Prelude.{◌≡◌, ◌-◌, ◌^◌, ◌≤◌, true, false, not, length, if◌then◌else◌, MatchOption, slice_index};
ghost use Rattle.std.specs.List.{list_any, zip};
ghost use Rattle.few.specs.Items.{items};
ghost use Rattle.rule.specs.Rules.{names_in, nodes_in};
ghost use Rattle.forecast.specs.Steady.{steady};
ghost use Rattle.outlook.specs.Letters.{letters_where};
ghost use Rattle.outlook.specs.Pairs.{AtOdds, PairOf, Visits, allowed_letters, letters_over, letters_on_f, letters_on_g, others, unmet_by, visited_by};
ghost use Rattle.ltl.specs.Arena.{first_of, temporals};
ghost use Rattle.ltl.specs.Words.{bit};
ghost use Rattle.forecast.specs.Forecasts.{holds_at};

use crate::letters::part;
use crate::odds::Odds;
use crate::outlook::Outlook;
use crate::pair::Pair;
use bits::has_bit;
use few::Few;
use ltl::Node;
use rule::Rule;

// The letters over the rule's names.
fn every_letter(rule: &Rule) -> u64
    ensures { result ≡ letters_over (length (names_in rule.now)) }
{
    let letters = rule.letter_count();
    u64::MAX >> (64 - letters)
}

impl Outlook<'_> {
    // The letters at which node q holds.
    fn part(&self, q: u8) -> u64
        ensures { result ≡ slice_index self.now.words q }
    {
        part(&self.words, q)
    }

    // Where a `G q` is within the forecast, the letters at which q fails. A node and whether it is inside stay two values: the clauses name them apart.
    // Apart from `holding`: one function over both would be told kind, side and letters, and say less.
    fn failing(&self, inside: bool, node: Node) -> u64
        ensures { result ≡ (if inside then letters_on_g (λ q. others (slice_index self.now.words q)) node else 0) }
    {
        match node {
            Node::Always(q) if inside => !self.part(q),
            _ => 0,
        }
    }

    // Where an `F q` is outside the forecast, the letters at which q holds.
    fn holding(&self, inside: bool, node: Node) -> u64
        ensures { result ≡ (if not inside then letters_on_f (λ q. slice_index self.now.words q) node else 0) }
    {
        match node {
            Node::Eventually(q) if !inside => self.part(q),
            _ => 0,
        }
    }

    // The letters that the forecast is at odds with. A temporal node is within the forecast if it holds there, at letter 0 as at any.
    fn odds(&self) -> Odds
        ensures { AtOdds (nodes_in self.now.rule.now) self.now.forecast (length (nodes_in self.now.rule.now)) result }
    {
        let mut odds = Odds {
            breaking: 0,
            barred: 0,
        };
        for (node, word) in self.rule.nodes().iter().zip(self.words.iter()) {
            let inside = has_bit(*word, 0);
            odds.breaking |= self.failing(inside, *node);
            odds.barred |= self.holding(inside, *node);
        }
        odds
    }

    // The letters that the forecast is not at odds with.
    fn allowed(&self, odds: Odds) -> u64
        requires { AtOdds (nodes_in self.now.rule.now) self.now.forecast (length (nodes_in self.now.rule.now)) odds }
        ensures { result ≡ allowed_letters (length (names_in self.now.rule.now)) (nodes_in self.now.rule.now) self.now.forecast }
    {
        every_letter(self.rule) & !odds.breaking & !odds.barred
    }

    // Whether no allowed letter meets an F within the forecast, or none fails a G outside it.
    fn is_unmet(&self, allowed: u64, inside: bool, node: Node) -> bool
        ensures { result ≡ unmet_by self.now.words allowed inside node }
    {
        match node {
            Node::Eventually(q) => inside && allowed & self.part(q) == 0,
            Node::Always(q) => !inside && allowed & !self.part(q) == 0,
            _ => false,
        }
    }

    fn has_unmet(&self, allowed: u64) -> bool
        ensures { result ≡ list_any (λ p. unmet_by self.now.words allowed (bit 0 p.1) p.0) (zip (nodes_in self.now.rule.now) self.now.words) }
    {
        let mut nodes = self.rule.nodes().iter().zip(self.words.iter());
        nodes.any(|(node, word)| self.is_unmet(allowed, has_bit(*word, 0), *node))
    }

    // Whether the forecast can stay as it is for ever.
    fn is_steady(&self, allowed: u64) -> bool
        requires { allowed ≡ allowed_letters (length (names_in self.now.rule.now)) (nodes_in self.now.rule.now) self.now.forecast }
        ensures { result ≡ steady (length (names_in self.now.rule.now)) (nodes_in self.now.rule.now) self.now.forecast }
    {
        allowed != 0 && !self.has_unmet(allowed)
    }

    // The visit set that a node gives: the letters that meet an F within the forecast, unless every letter does.
    fn visit_set(&self, every: u64, inside: bool, node: Node) -> Option<u64>
        ensures { MatchOption result
            (visited_by self.now.words every inside node ≡ false)
            (λ letters. (visited_by self.now.words every inside node ≡ true) × (letters ≡ slice_index self.now.words (first_of node))) }
    {
        match node {
            Node::Eventually(q) if inside && every & !self.part(q) != 0 => Some(self.part(q)),
            _ => None,
        }
    }

    // The visit sets of the forecast, in the order of its bits.
    fn visit_sets(&self) -> Few<u64, 8>
        ensures { Visits (length (names_in self.now.rule.now)) (nodes_in self.now.rule.now) self.now.forecast (length (nodes_in self.now.rule.now)) (items result) }
    {
        let every = every_letter(self.rule);
        let mut visits = Few::new(0);
        for (node, word) in self.rule.nodes().iter().zip(self.words.iter()) {
            if let Some(letters) = self.visit_set(every, has_bit(*word, 0), *node) {
                // there is room, since a rule has at most eight temporal subformulae
                visits.push(letters).unwrap();
            }
        }
        visits
    }

    // The pair of the forecast, if it is steady.
    fn pair(&self) -> Option<Pair>
        ensures { MatchOption result
            (steady (length (names_in self.now.rule.now)) (nodes_in self.now.rule.now) self.now.forecast ≡ false)
            (PairOf (length (names_in self.now.rule.now)) (nodes_in self.now.rule.now) self.now.forecast) }
    {
        let odds = self.odds();
        if !self.is_steady(self.allowed(odds)) {
            return None;
        }
        Some(Pair {
            forecast: self.forecast,
            breaking: odds.breaking,
            visits: self.visit_sets(),
        })
    }

    // The letters at which the rule holds.
    fn rule_letters(&self) -> u64
        ensures { result ≡ letters_where (λ a. holds_at (nodes_in self.now.rule.now) a self.now.forecast (length (nodes_in self.now.rule.now) - 1)) }
    {
        self.words[self.rule.count() - 1]
    }
}

// How many forecasts there are: sets of temporal subformulae.
pub fn forecast_count(rule: &Rule) -> usize
    ensures value { result ≡ 2 ^ temporals (nodes_in rule.now) }
    ensures few { result ≤ 256 }
{
    1 << rule.temporals()
}

// The letters at which the rule holds under a forecast. Callers have the two apart; inside they are an outlook.
pub fn rule_letters(rule: &Rule, forecast: u8) -> u64
    ensures { result ≡ letters_where (λ a. holds_at (nodes_in rule.now) a forecast (length (nodes_in rule.now) - 1)) }
{
    Outlook::new(rule, forecast).rule_letters()
}

// The pair of a forecast, if it is steady.
pub fn pair_of(rule: &Rule, forecast: u8) -> Option<Pair>
    ensures { MatchOption result
        (steady (length (names_in rule.now)) (nodes_in rule.now) forecast ≡ false)
        (PairOf (length (names_in rule.now)) (nodes_in rule.now) forecast) }
{
    Outlook::new(rule, forecast).pair()
}
