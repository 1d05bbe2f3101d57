// Copies of values: they share the lists, so that a copy takes the time of one item.
ghost use Rattle.std.specs.Prelude.{◌≡◌, IfOk};

use crate::holding::share;
use crate::value_types::{Items, Pair, Pairs, Prop, Props, Value};
use std::alloc::{AllocError, Global};
use value_trees::NoMemory;

/// An equal value, Functions included.
pub fn copy_value(_alloc: Global, v: &Value) -> Result<Value, NoMemory>
    ensures { IfOk result (λ r. r ≡ v.now) }
{
    Ok(v.clone()?)
}

impl Clone for Value {
    ghost is_clone = { λ x y. y ≡ x };

    fn clone(&self) -> Result<Value, AllocError> {
        match self {
            Value::Undefined => Ok(Value::Undefined),
            Value::Null => Ok(Value::Null),
            Value::Bool(b) => Ok(Value::Bool(*b)),
            Value::Int(n) => Ok(Value::Int(*n)),
            Value::Text(s) => Ok(Value::Text(s.clone()?)),
            Value::Date(d) => Ok(Value::Date(*d)),
            Value::Bytes(b) => Ok(Value::Bytes(b.clone()?)),
            Value::Array(items, props) => Ok(Value::Array(items.clone()?, props.clone()?)),
            Value::Object(props) => Ok(Value::Object(props.clone()?)),
            Value::Map(pairs) => Ok(Value::Map(pairs.clone()?)),
            Value::Set(items) => Ok(Value::Set(items.clone()?)),
            Value::Function => Ok(Value::Function),
        }
    }
}

impl Clone for Prop {
    ghost is_clone = { λ x y. y ≡ x };

    fn clone(&self) -> Result<Prop, AllocError> {
        Ok(Prop {
            name: self.name.clone()?,
            value: self.value.clone()?,
        })
    }
}

impl Clone for Pair {
    ghost is_clone = { λ x y. y ≡ x };

    fn clone(&self) -> Result<Pair, AllocError> {
        Ok(Pair {
            key: self.key.clone()?,
            value: self.value.clone()?,
        })
    }
}

impl Clone for Items {
    ghost is_clone = { λ x y. y ≡ x };

    fn clone(&self) -> Result<Items, AllocError> {
        Ok(Items {
            items: share(&self.items)?,
            alloc: self.alloc,
        })
    }
}

impl Clone for Props {
    ghost is_clone = { λ x y. y ≡ x };

    fn clone(&self) -> Result<Props, AllocError> {
        Ok(Props {
            props: share(&self.props)?,
            alloc: self.alloc,
        })
    }
}

impl Clone for Pairs {
    ghost is_clone = { λ x y. y ≡ x };

    fn clone(&self) -> Result<Pairs, AllocError> {
        Ok(Pairs {
            pairs: share(&self.pairs)?,
            alloc: self.alloc,
        })
    }
}
