// What a node is: 0 or 1, or a count; 0xffff_ffff for none. (01: N3.)
ghost use Rattle.std.specs.Prelude.{◌≡◌};
ghost use Rattle.node.specs.Kind.{is_scalar_at, is_array_at, is_hash_at, is_empty_at, len_at};
ghost use Rattle.quarto_yaml.specs.None.{or_none, flag_or_none};

use records::record::ABSENT;

// 1, 0 or none.
fn flag_or_none(flag: Option<bool>) -> u32
    ensures { result ≡ flag_or_none flag }
{
    flag.map_or(ABSENT, |t| u32::from(t))
}

#[unsafe(no_mangle)]
pub extern "C" fn quarto_yaml_is_scalar(records: &[u32], n: u32) -> u32
    ensures { result ≡ flag_or_none (is_scalar_at records.now n) }
{
    flag_or_none(node::kind::is_scalar(records, n as usize))
}

#[unsafe(no_mangle)]
pub extern "C" fn quarto_yaml_is_array(records: &[u32], n: u32) -> u32
    ensures { result ≡ flag_or_none (is_array_at records.now n) }
{
    flag_or_none(node::kind::is_array(records, n as usize))
}

#[unsafe(no_mangle)]
pub extern "C" fn quarto_yaml_is_hash(records: &[u32], n: u32) -> u32
    ensures { result ≡ flag_or_none (is_hash_at records.now n) }
{
    flag_or_none(node::kind::is_hash(records, n as usize))
}

#[unsafe(no_mangle)]
pub extern "C" fn quarto_yaml_is_empty(records: &[u32], n: u32) -> u32
    ensures { result ≡ flag_or_none (is_empty_at records.now n) }
{
    flag_or_none(node::kind::is_empty(records, n as usize))
}

// As the record says: a damaged one may say 0xffff_ffff.
#[unsafe(no_mangle)]
pub extern "C" fn quarto_yaml_len(records: &[u32], n: u32) -> u32
    ensures { result ≡ or_none (len_at records.now n) }
{
    node::kind::len(records, n as usize).unwrap_or(ABSENT)
}
