// Equality of two values, in near linear time.
ghost use Rattle.std.specs.Prelude.{◌≡◌, ◌<◌, ◌^◌, ◌++◌, IfOk, OnOk, cond, unsigned_abs};
ghost use Rattle.json_text.specs.Canonical.{Writes};
ghost use Rattle.json_text.specs.Same.{compared, number_text};
ghost use Rattle.json_text.specs.declared.comparison.Comparison.TheVariants as comparison;
ghost use Rattle.text_num.specs.Units.{units_of, units_text};

use crate::text::{put_text, unescaped};
use crate::{Comparison, Kind, Node, Tree};
use lists::{Bytes, Memory};
use std::collections::BTreeMap;
use text_num::{put_units, read_units};

impl<'a> Tree<'a> {
    ghost use Rattle.std.specs.Prelude.{◌≡◌, [], IfOk, Some};
    ghost use Rattle.std.specs.List.{AllByRecursion};
    ghost use Rattle.json_text.specs.Canonical.{IsInside, Writes, as_list, as_object, named, seen};
    ghost use Rattle.json_text.specs.Grammar.{spelling};
    ghost use Rattle.json_text.specs.Nodes.{IsNodeOf, members_of, items_of, value_at};
    ghost use Rattle.json_text.specs.Same.{by_name, canonical, comparison, field_text};
    ghost use Rattle.json_text.specs.Text.{quoted, text_of};

    /// Whether two values are equal: numbers by value as multiples of 10^-18, strings by their unescaped
    /// texts, lists item by item, and objects by their members, in whatever order they stand. Of several
    /// members of one name the last alone is looked at. Numbers are looked at whatever the kinds are. That
    /// `Equal` means this, part by part, is the law `equal_values_have_equal_texts`. The time is that of
    /// sorting the members by name.
    pub fn compare(
        &self,
        node: Node,
        other: &Tree<'_>,
        other_node: Node,
    ) -> Result<Comparison, Memory>
        requires node { IsNodeOf self.now node }
        requires other_node { IsNodeOf other.now other_node }
        ensures { IfOk result (λ c. c ≡
            comparison (value_at self.now node) (value_at other.now other_node)) }
    {
        let left = self.canonical(node)?;
        let right = other.canonical(other_node)?;
        Ok(compared(left, right))
    }

    /// A text that a value has in common with its equals and with no other value, in a form of this
    /// project's own. None where a number that is looked at is no multiple of 10^-18 or isn't below 10^20.
    pub fn canonical(&self, node: Node) -> Result<Option<Bytes>, Memory>
        requires { IsNodeOf self.now node }
        ensures { IfOk result (λ text. text ≡ canonical (value_at self.now node)) }
    {
        let mut out = Bytes::new(*self.nodes.allocator());
        if self.put_value(node, &mut out)? {
            Ok(Some(out))
        } else {
            Ok(None)
        }
    }

    // Writes the canonical text of a value at the end, or answers false where it has none. A tree nests
    // no deeper than 64 brackets, so the calls nest no deeper than 192.
    #[cycle(canonical)]
    fn put_value(&self, node: Node, out: &mut Bytes) -> Result<bool, Memory>
        requires { IsNodeOf self.now node }
        ensures { IfOk result (λ known. Writes known out.old
            (canonical (value_at self.now node)) out.new) }
    {
        match self.kind(node) {
            Kind::Null | Kind::Bool => self.put_word(node, out),
            Kind::Number => put_number(self.slice(node), out),
            Kind::Text => self.put_string(node, out),
            Kind::List => self.put_items(node, out),
            Kind::Object => self.put_members(node, out),
        }
    }

    fn put_word(&self, node: Node, out: &mut Bytes) -> Result<bool, Memory>
        requires { IsNodeOf self.now node }
        ensures { IfOk result (λ known. Writes known out.old
            (Some (spelling (value_at self.now node))) out.new) }
    {
        out.extend_from_slice(self.slice(node))?;
        Ok(true)
    }

    fn put_string(&self, node: Node, out: &mut Bytes) -> Result<bool, Memory>
        requires { IsNodeOf self.now node }
        ensures { IfOk result (λ known. Writes known out.old
            (Some (quoted (text_of (value_at self.now node)))) out.new) }
    {
        let text = unescaped(*self.nodes.allocator(), self.slice(node))?;
        put_text(out, text.as_slice())?;
        Ok(true)
    }

    #[cycle(canonical)]
    fn put_items(&self, node: Node, out: &mut Bytes) -> Result<bool, Memory>
        requires { IsNodeOf self.now node }
        ensures { IfOk result (λ known. Writes known out.old
            (as_list (items_of (value_at self.now node))) out.new) }
    {
        out.push(b'[')?;
        for item in self.items(node) {
            if !self.put_value(item, out)? {
                return Ok(false);
            }
            out.push(b',')?;
        }
        out.push(b']')?;
        Ok(true)
    }

    #[cycle(canonical)]
    fn put_members(&self, node: Node, out: &mut Bytes) -> Result<bool, Memory>
        requires { IsNodeOf self.now node }
        ensures { IfOk result (λ known. Writes known out.old
            (as_object (members_of (value_at self.now node))) out.new) }
    {
        let mut fields = self.last_members(node)?;
        out.push(b'{')?;
        while let Some((name, value)) = fields.pop_first() {
            if !self.put_member(&name, value, out)? {
                return Ok(false);
            }
            out.push(b',')?;
        }
        out.push(b'}')?;
        Ok(true)
    }

    #[cycle(canonical)]
    fn put_member(&self, name: &Bytes, value: Node, out: &mut Bytes) -> Result<bool, Memory>
        requires { IsNodeOf self.now value }
        ensures { IfOk result (λ known. Writes known out.old
            (field_text (name.now, canonical (value_at self.now value))) out.new) }
    {
        put_text(out, name.as_slice())?;
        out.push(b':')?;
        self.put_value(value, out)
    }

    // The members of an object by name, of several of one name the last.
    fn last_members(&self, node: Node) -> Result<BTreeMap<Bytes, Node>, Memory>
        requires { IsNodeOf self.now node }
        ensures fields { IfOk result (λ map. seen self.now map.entries ≡
            by_name [] (named (members_of (value_at self.now node)))) }
        ensures inside { IfOk result (λ map. AllByRecursion
            (λ e. IsInside self.now node e.1) map.entries) }
    {
        let mut last = BTreeMap::new(*self.nodes.allocator());
        for (name, value) in self.members(node) {
            let text = unescaped(*self.nodes.allocator(), self.slice(name))?;
            last.insert(text, value)?;
        }
        Ok(last)
    }
}

fn compared(left: Option<Bytes>, right: Option<Bytes>) -> Comparison
    ensures { result ≡ compared left right }
{
    match (left, right) {
        (Some(v), Some(w)) => equality(v == w),
        _ => Comparison::OutOfRange,
    }
}

fn equality(same: bool) -> Comparison
    ensures { result ≡ cond same comparison.Equal comparison.Unequal }
{
    if same {
        Comparison::Equal
    } else {
        Comparison::Unequal
    }
}

fn put_number(spelling: &[u8], out: &mut Bytes) -> Result<bool, Memory>
    ensures { IfOk result (λ known. Writes known out.old (number_text (units_of spelling.now)) out.new) }
{
    match read_units(spelling) {
        Ok(units) => {
            put_decimal(units, out)?;
            Ok(true)
        }
        Err(_) => Ok(false),
    }
}

fn put_decimal(units: i128, out: &mut Bytes) -> Result<(), Memory>
    requires { unsigned_abs units < 10 ^ 38 }
    ensures { OnOk result (out.new ≡ out.old ++ units_text units) }
{
    let mut digits = [0; 64];
    let size = put_units(units, &mut digits);
    out.extend_from_slice(&digits[..size])
}
